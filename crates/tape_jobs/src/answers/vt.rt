//! The answers of a VT.

use super::{Answers, Asked, Question};
use crate::job::JobFault;
use crate::shared::put_hex_line;
use screen_picture::picture;
use screen_print::{changes, escaped, find, plain};
use screen_state::state;
use std::alloc::Global;
use std::io::Write;
use tape_core::Watched;
use tape_core::limits::LAST_MOMENT;
use tape_seek::Session;
use vt_term::Terminal;

impl Answers for Terminal {
    ghost use Rattle.tape_check.specs.declared.played.PlayedAs.TheVariants.{Vt};

    ghost played = { λ profile. Vt profile };

    #[tactic(auto, using(crate::proofs::StateLemmas::state_of_vt), unfolding(crate::specs::Moment::drawn_at, crate::specs::Moment::escaped_at, crate::specs::Moment::plain_at, crate::specs::Moment::screen_text, crate::specs::Moment::sent_at, crate::specs::Moment::state_at))]
    fn put_answer<O: Write>(
        session: &mut Session,
        question: Question,
        out: &mut Watched<O>,
    ) -> Result<(), JobFault> {
        let view = session.seek(question.at)?;
        match question.asked {
            Asked::Screen => plain(view.terminal(), out)?,
            Asked::Escaped => escaped(view.terminal(), out)?,
            Asked::State => state(view.terminal(), out)?,
            Asked::Picture => picture(view.terminal(), question.at.min(LAST_MOMENT), out)?,
            Asked::Reports => put_hex_line(view.reports(), out)?,
        }
        Ok(())
    }

    #[tactic(auto, unfolding(crate::specs::Player::changes_of))]
    fn put_changes<O: Write>(
        _alloc: Global,
        session: &mut Session,
        from: Option<u64>,
        to: u64,
        out: &mut Watched<O>,
    ) -> Result<(), JobFault> {
        changes(session, from, to, out)?;
        Ok(())
    }

    #[tactic(auto, unfolding(crate::specs::Player::found_of))]
    fn put_found<O: Write>(
        alloc: Global,
        session: &mut Session,
        from: Option<u64>,
        to: u64,
        text: &[char],
        out: &mut Watched<O>,
    ) -> Result<(), JobFault> {
        find(alloc, session, from, to, text, out)?;
        Ok(())
    }
}
