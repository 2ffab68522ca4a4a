//! The answers of a terminal of today.

use super::{Answers, Asked, Question};
use crate::job::JobFault;
use crate::shared::put_hex_line;
use std::alloc::Global;
use std::io::Write;
use tape_core::Watched;
use tape_core::limits::LAST_MOMENT;
use tape_seek::Session;
use xterm_escaped::escaped;
use xterm_picture::picture;
use xterm_print::{changes, find, plain, seek};
use xterm_state::state;
use xterm_term::Terminal;

impl Answers for Terminal {
    ghost use Rattle.tape_check.specs.declared.played.PlayedAs.TheVariants.{Today};

    ghost played = { λ size. Today size.columns size.lines };

    #[tactic(auto, using(crate::proofs::StateLemmas::state_of_today), unfolding(crate::specs::Moment::drawn_at, crate::specs::Moment::escaped_at, crate::specs::Moment::plain_at, crate::specs::Moment::sent_at, crate::specs::Moment::state_at))]
    fn put_answer<O: Write>(
        session: &mut Session<Terminal>,
        question: Question,
        out: &mut Watched<O>,
    ) -> Result<(), JobFault> {
        let view = seek(session, question.at)?;
        match question.asked {
            Asked::Screen => plain(view.terminal(), out)?,
            Asked::Escaped => escaped(view.terminal(), out)?,
            Asked::State => state(view.terminal(), out)?,
            Asked::Picture => picture(view.terminal(), question.at.min(LAST_MOMENT), out)?,
            Asked::Reports => put_hex_line(view.reports(), out)?,
        }
        Ok(())
    }

    #[tactic(auto, using(crate::proofs::PlayerLemmas::changes_of_size))]
    fn put_changes<O: Write>(
        alloc: Global,
        session: &mut Session<Terminal>,
        from: Option<u64>,
        to: u64,
        out: &mut Watched<O>,
    ) -> Result<(), JobFault> {
        changes(alloc, session, from, to, out)?;
        Ok(())
    }

    #[tactic(auto, using(crate::proofs::PlayerLemmas::found_of_size))]
    fn put_found<O: Write>(
        alloc: Global,
        session: &mut Session<Terminal>,
        from: Option<u64>,
        to: u64,
        text: &[char],
        out: &mut Watched<O>,
    ) -> Result<(), JobFault> {
        find(alloc, session, from, to, text, out)?;
        Ok(())
    }
}
