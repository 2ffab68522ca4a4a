//! Bodies of real recordings, made by `examples/record.py`: nano, mc, and the tour of `examples/`.

pub(super) const NANO: &[u8] = b"\
    \x1b[?2004h\x1b(B\x1b)0\x1b[1;24r\x1b[m\x0f\x1b[?7h\x1b[?1h\x1b=\x1b[?1h\x1b=\x1b[H\x1b[J\x1b[22;34H\x1b[0;7m\
    \x0f[ Reading... ]\x1b[m\x0f\x1b[22;33H\x1b[0;7m\x0f[ Read 5 lines ]\x1b[m\x0f\x1b[H\x1b[0;7m\x0f  GNU nano 7.\
    2                        notes.txt                                 \x1b[1;79H\x1b[m\x0f\r\x1b[22B\x1b[0;7m\x0f\
    ^G\x1b[m\x0f Help\x1b[6C\x1b[0;7m\x0f^O\x1b[m\x0f Write Out \x1b[0;7m\x0f^W\x1b[m\x0f Where Is  \x1b[0;7m\x0f^\
    K\x1b[m\x0f Cut\x1b[7C\x1b[0;7m\x0f^T\x1b[m\x0f Execute   \x1b[0;7m\x0f^C\x1b[m\x0f Location\r\x1b[1B\x1b[0;7m\
    \x0f^X\x1b[m\x0f Exit\x1b[6C\x1b[0;7m\x0f^R\x1b[m\x0f Read File \x1b[0;7m\x0f^\\\x1b[m\x0f Replace   \x1b[0;7m\
    \x0f^U\x1b[m\x0f Paste     \x1b[0;7m\x0f^J\x1b[m\x0f Justify   \x1b[0;7m\x0f^/\x1b[m\x0f Go To Line\r\x1b[22AT\
    he quick brown fox jumps over the lazy dog.\r\x1b[1BSecond line of the file, with a tab     \x1b[m\x0fhere.\r\
    \x1b[2BA paragraph that is rather long so that the editor has to wrap it or to scroll \x1b[0;7m\x0f>\x1b[6;1H\
    \x1b[m\x0fLast line.\r\x1b[4A\x1b[1;49H\x1b[0;7m\x0f*\x1b[29C\x1b[m\x0f\x1b7\x1b[2;21r\x1b8\r\x1b[1B\x1bM\x1b[\
    1;24r\x1b[2;1HHello, world.\r\x1b[1B\x1b[3BA\x1b[6;22r\x1b[22;1H\n\x1b[1;24r\x1b[21;1H\x1b[K\x1b[15A\x1b[23;14\
    H   \x1b[0;7m\x0fM-C\x1b[m\x0f Case Sens   \x1b[0;7m\x0fM-B\x1b[m\x0f Backwards   \x1b[0;7m\x0f^P\x1b[m\x0f Ol\
    der        \x1b[0;7m\x0f^T\x1b[m\x0f Go To Line\x1b[1B\x1b[76D\x1b[0;7m\x0fC\x1b[m\x0f Cancel       \x1b[0;7m\
    \x0fM-R\x1b[m\x0f Reg.exp.    \x1b[0;7m\x0f^R\x1b[m\x0f Replace      \x1b[0;7m\x0f^N\x1b[m\x0f Newer\x1b[K\x1b\
    [1A\x1b[21C\x1b[22;32H\x1b[0;7m\x0f[ Search Wrapped ]\x1b[m\x0f\x1b[23;14H\x1b[0;7m\x0f^O\x1b[m\x0f Write Out \
    \x1b[0;7m\x0f^W\x1b[m\x0f Where Is  \x1b[0;7m\x0f^K\x1b[m\x0f Cut       \x1b[0;7m\x0f^T\x1b[m\x0f Execute   \
    \x1b[0;7m\x0f^C\x1b[m\x0f Location \x1b[1B\x1b[76D\x1b[0;7m\x0fX\x1b[m\x0f Exit      \x1b[0;7m\x0f^R\x1b[m\x0f\
    \x20Read File \x1b[0;7m\x0f^\\\x1b[m\x0f Replace   \x1b[0;7m\x0f^U\x1b[m\x0f Paste     \x1b[0;7m\x0f^J\x1b[m\
    \x0f Justify   \x1b[0;7m\x0f^/\x1b[m\x0f Go To Line\x1b[3;36H\x1b[0;7m\x0flazy\x08\x08\x08\x08\x1b[m\x0f\x1b7\
    \x1b[4;22r\x1b8\r\x1b[1B\x1bM\x1bM\x1b[1;24r\x1b[3;36HA paragraph that is rather long so that the \x1b[0;7m\
    \x0f>\x1b[4;1H\x1b[m\x0fA paragraph that is rather long so that the editor has to wrap it or to scroll \x1b[0;\
    7m\x0f>\x1b[5;1H\x1b[m\x0flazy dog.\r\x1b[18B\x1b[1C\x1b[0;7m\x0fL\x1b[m\x0f Refresh   \x1b[0;7m\x0f^W\x1b[m\
    \x0f Where Is  \x1b[0;7m\x0fM-Q\x1b[m\x0f Previous \x1b[0;7m\x0f^P\x1b[m\x0f Prev Line \x1b[0;7m\x0f^Y\x1b[m\
    \x0f Prev Page \x1b[0;7m\x0fM-\\\x1b[m\x0f First Line\x1b[1B\x1b[76DClose\x1b[6C\x1b[0;7m\x0fQ\x1b[m\x0f Where\
    \x20Was \x1b[0;7m\x0fM-W\x1b[m\x0f Next     \x1b[0;7m\x0f^N\x1b[m\x0f Next Line \x1b[0;7m\x0f^V\x1b[m\x0f Next\
    \x20Page \x1b[0;7m\x0fM-/\x1b[m\x0f Last\x1b[5C\x1b[H\x1b[2C\x1b[0;7m\x0f            \x1b[1;32HMain nano help \
    text\x1b[28C\x1b[m\x0f\r\x1b[1B\x1b[K\x1b[1B The nano editor is designed to emulate the functionality and ease\
    -of-use       \x1b[4;1H of the UW Pico text editor.  There are four main sections of the editor.       \x1b[5;\
    1H The top line shows the program version, the current filename being\r\x1b[1B edited, and whether or not the \
    file has been modified.  Next is the main\r\x1b[1B editor window showing the file being edited.  The status li\
    ne is the\r\x1b[1B third line from the bottom and shows important messages.  The bottom two\r\x1b[1B lines sho\
    w the most commonly used shortcuts in the editor.\r\x1b[2B Shortcuts are written as follows: Control-key seque\
    nces are notated with\r\x1b[1B a \x1b[0;1m\x0f'^'\x1b[m\x0f and can be entered either by using the Ctrl key or\
    \x20pressing the Esc\r\x1b[1B key twice.  Meta-key sequences are notated with \x1b[0;1m\x0f'M-'\x1b[m\x0f and \
    can be entered\r\x1b[1B using either the Alt, Cmd, or Esc key, depending on your keyboard setup.\r\x1b[1B Also\
    , pressing Esc twice and then typing a three-digit decimal number\r\x1b[1B from 000 to 255 will enter the char\
    acter with the corresponding value.\r\x1b[1B The following keystrokes are available in the main editor window.\
    \r\x1b[1B Alternative keys are shown in parentheses:\r\x1b[2B^G\x1b[m\x0f     (\x461) \x1b[m\x0f     Display this\
    \x20help text\r\x1b[1B^X\x1b[m\x0f     (\x462) \x1b[m\x0f     Close the current buffer / Exit from nano\r\x1b[19A\
    \x1b[21B\x1b[1C\x1b[0;7m\x0fG\x1b[m\x0f Help      \x1b[0;7m\x0f^O\x1b[m\x0f Write Out \x1b[0;7m\x0f^W\x1b[m\
    \x0f Where Is  \x1b[0;7m\x0f^K\x1b[m\x0f Cut       \x1b[0;7m\x0f^T\x1b[m\x0f Execute   \x1b[0;7m\x0f^C\x1b[m\
    \x0f Location   \x1b[1B\x1b[76DExit \x1b[6C\x1b[0;7m\x0fR\x1b[m\x0f Read File \x1b[0;7m\x0f^\\\x1b[m\x0f Repla\
    ce   \x1b[0;7m\x0f^U\x1b[m\x0f Paste     \x1b[0;7m\x0f^J\x1b[m\x0f Justify   \x1b[0;7m\x0f^/\x1b[m\x0f Go To\
    \x1b[5C\x1b[H\x1b[2C\x1b[0;7m\x0fGNU nano 7.2\x1b[1;32H       notes.txt * \x1b[28C\x1b[m\x0f\r\x1b[1BHello, wo\
    rld.\r\x1b[1BThe quick brown fox jumps over the A paragraph that is rather long so that the \x1b[0;7m\x0f>\x1b\
    [4;1H\x1b[m\x0fA paragraph that is rather long so that the editor has to wrap it or to scroll \x1b[0;7m\x0f>\
    \x1b[5;1H\x1b[m\x0flazy dog.\x1b[K\r\x1b[1BSecond line of the file, with a tab     \x1b[m\x0fhere.\x1b[K\r\x1b\
    [1B\x1b[K\x1b[1BLast line.\x1b[K\r\x1b[1B\x1b[K\x1b[2B\x1b[K\x1b[1B\x1b[K\x1b[1B\x1b[K\x1b[1B\x1b[K\x1b[1B\x1b\
    [K\x1b[1B\x1b[K\x1b[1B\x1b[K\x1b[1B\x1b[K\x1b[2B\x1b[K\x1b[1B\x1b[K\x1b[16A\x1b[17B\x1b[0;7m\x0fSave modified \
    buffer?                                                           \x1b[23;1H Y\x1b[m\x0f Yes\x1b[K\r\x1b[1B\
    \x1b[0;7m\x0f N\x1b[m\x0f No  \x1b[6C   \x1b[0;7m\x0f^C\x1b[m\x0f Cancel\x1b[K\x1b[2A\x08\x08\x08\r\x1b[J\x1b[\
    2B\x1b[24;1H\r\x1b[?1l\x1b>\x1b[?2004l";

pub(super) const MC: &[u8] = b"\
    \x1b[1;24r\x1b(B\x1b)0\x1b[24;1H\x1b[m\x0f\x1b[m\x0f\r                                                        \
    \x20                      \r\x1b[?2004h\x1b[1;24r\x1b(B\x1b)0\x1b[?1h\x1b=\x1b[m\x0f\x1b[1;24r\x1b[H\x1b[J\x1b\
    [2;79H\x1b[1K \x0ek\x1b[2;80H\rl\x1b[m\x0f\x0f<\x0eq\x1b[m\x0f\x0f\x1b[7m /tmp/demo/left \x1b[m\x0f\x0eqqqqqqq\
    qqqqqqqq\x1b[m\x0f\x0f.[^]>\x0ek\x1b[39C\r\nx\x1b[m\x0f\x0f.n\x1b[5CName\x1b[6C\x0ex\x1b[m\x0f\x0f Size  \x0ex\
    \x1b[m\x0f\x0fModify time \x0ex\r\nx\x1b[m\x0f\x0f\x1b[7m/..              \x1b[m\x0f\x0e\x1b[7mx\x1b[m\x0f\x0f\
    \x1b[7mUP--DIR\x1b[m\x0f\x0e\x1b[7mx\x1b[m\x0f\x0f\x1b[7mNov 22 09:37\x1b[m\x0f\x0ex\r\nx\x1b[m\x0f\x0f/doc\
    \x1b[13C\x0ex\x1b[m\x0f\x0f   4096\x0ex\x1b[m\x0f\x0fJan  2  2026\x0ex\r\nx\x1b[m\x0f\x0f/src\x1b[13C\x0ex\x1b\
    [m\x0f\x0f   4096\x0ex\x1b[m\x0f\x0fJan  2  2026\x0ex\r\nx\x1b[m\x0f\x0f hello.c\x1b[9C\x0ex\x1b[6C\x1b[m\x0f\
    \x0f6\x0ex\x1b[m\x0f\x0fJan  2  2026\x0ex\r\nx\x1b[m\x0f\x0f numbers.txt\x1b[5C\x0ex\x1b[m\x0f\x0f    111\x0ex\
    \x1b[m\x0f\x0fJan  2  2026\x0ex\r\nx\x1b[17Cx\x1b[7Cx\x1b[12Cx\r\nx\x1b[17Cx\x1b[7Cx\x1b[12Cx\r\nx\x1b[17Cx\
    \x1b[7Cx\x1b[12Cx\r\nx\x1b[17Cx\x1b[7Cx\x1b[12Cx\r\nx\x1b[17Cx\x1b[7Cx\x1b[12Cx\r\nx\x1b[17Cx\x1b[7Cx\x1b[12Cx\
    \r\nx\x1b[17Cx\x1b[7Cx\x1b[12Cx\r\nx\x1b[17Cx\x1b[7Cx\x1b[12Cx\r\nx\x1b[17Cx\x1b[7Cx\x1b[12Cx\r\nx\x1b[17Cx\
    \x1b[7Cx\x1b[12Cx\r\ntqqqqqqqqqqqqqqqqqqqqqqqqqqqqqqqqqqqqqqu\r\nx\x1b[m\x0f\x0fUP--DIR\x1b[31C\x0ex\r\nmqqqqq\
    qqqqqqqqqqqqq\x1b[m\x0f\x0f 206G / 252G (81%) \x0eqj\r\n\x1b[m\x0f\x0fHint: Tab changes your current panel.\
    \x1b[24;2H1\x1b[7mHelp  \x1b[m\x0f 2\x1b[7mMenu  \x1b[m\x0f 3\x1b[7mView  \x1b[m\x0f 4\x1b[7mEdit  \x1b[m\x0f \
    5\x1b[7mCopy  \x1b[m\x0f 6\x1b[7mRenMov\x1b[m\x0f 7\x1b[7mMkdir \x1b[m\x0f 8\x1b[7mDelete\x1b[m\x0f 9\x1b[7mPu\
    llDn\x1b[m\x0f10\x1b[7mQuit \x1b[22;80H\x1b[1;1H  Left     File     Command     Options     Right             \
    \x20                 \x1b[2;41H\x1b[m\x0f\x0el\x1b[m\x0f\x0f<\x0eq\x1b[m\x0f\x0f /tmp/demo/right \x0eqqqqqqqqq\
    qqqqq\x1b[m\x0f\x0f.[^]>\x1b[3;41H\x0ex\x1b[m\x0f\x0f.n\x1b[5CName\x1b[6C\x0ex\x1b[m\x0f\x0f Size  \x0ex\x1b[m\
    \x0f\x0fModify time \x0ex\x1b[4;41Hx\x1b[m\x0f\x0f/..\x1b[14C\x0ex\x1b[m\x0f\x0fUP--DIR\x0ex\x1b[m\x0f\x0fNov \
    22 09:37\x0ex\x1b[5;41Hx\x1b[m\x0f\x0f/notes\x1b[11C\x0ex\x1b[m\x0f\x0f   4096\x0ex\x1b[m\x0f\x0fJan  2  2026\
    \x0ex\x1b[6;41Hx\x1b[m\x0f\x0f/old\x1b[13C\x0ex\x1b[m\x0f\x0f   4096\x0ex\x1b[m\x0f\x0fJan  2  2026\x0ex\x1b[7\
    ;41Hx\x1b[m\x0f\x0f table.tsv\x1b[7C\x0ex\x1b[6C\x1b[m\x0f\x0f4\x0ex\x1b[m\x0f\x0fJan  2  2026\x0ex\x1b[8;41Hx\
    \x1b[17Cx\x1b[7Cx\x1b[12Cx\x1b[9;41Hx\x1b[17Cx\x1b[7Cx\x1b[12Cx\x1b[10;41Hx\x1b[17Cx\x1b[7Cx\x1b[12Cx\x1b[11;4\
    1Hx\x1b[17Cx\x1b[7Cx\x1b[12Cx\x1b[12;41Hx\x1b[17Cx\x1b[7Cx\x1b[12Cx\x1b[13;41Hx\x1b[17Cx\x1b[7Cx\x1b[12Cx\x1b[\
    14;41Hx\x1b[17Cx\x1b[7Cx\x1b[12Cx\x1b[15;41Hx\x1b[17Cx\x1b[7Cx\x1b[12Cx\x1b[16;41Hx\x1b[17Cx\x1b[7Cx\x1b[12Cx\
    \x1b[17;41Hx\x1b[17Cx\x1b[7Cx\x1b[12Cx\x1b[18;41Hx\x1b[17Cx\x1b[7Cx\x1b[12Cx\x1b[19;41Htqqqqqqqqqqqqqqqqqqqqqq\
    qqqqqqqqqqqqqqqqu\x1b[20;41Hx\x1b[m\x0f\x0fUP--DIR\x1b[31C\x0ex\x1b[21;41Hmqqqqqqqqqqqqqqqqqq\x1b[m\x0f\x0f 20\
    6G / 252G (81%) \x0eqj\x1b[23;1H\x1b[m\x0f\x0f#\x1b[76C[^]\x1b[23;3H\x1b[2;7H\x1b[7m                          \
    \x20                                         \x1b[3;7H \x1b[m\x0f\x0e\x1b[7mlqqqqqqqqqqqqqqqqqqqqqqqqqqqqq\x1b\
    [m\x0f\x0f\x1b[7m Help \x1b[m\x0f\x0e\x1b[7mqqqqqqqqqqqqqqqqqqqqqqqqqqqqqk\x1b[m\x0f\x0f\x1b[7m \x1b[4;8H\x1b[\
    m\x0f\x0e\x1b[7mx\x1b[m\x0f\x0f\x1b[7m \x1b[m\x0f\x0e\x1b[7mlqwqk\x1b[m\x0f\x0f\x1b[7m     \x1b[m\x0f\x0e\x1b[\
    7mk\x1b[m\x0f\x0f\x1b[7m           \x1b[m\x0f\x0e\x1b[7mk\x1b[m\x0f\x0f\x1b[7m                                \
    \x20       \x1b[m\x0f\x0e\x1b[7mx\x1b[m\x0f\x0f\x1b[7m \x1b[5;7H \x1b[m\x0f\x0e\x1b[7mx\x1b[m\x0f\x0f\x1b[7m \
    \x1b[m\x0f\x0e\x1b[7mx\x1b[m\x0f\x0f\x1b[7m \x1b[m\x0f\x0e\x1b[7mx\x1b[m\x0f\x0f\x1b[7m \x1b[m\x0f\x0e\x1b[7mx\
    \x1b[m\x0f\x0f\x1b[7m .   \x1b[m\x0f\x0e\x1b[7mx\x1b[m\x0f\x0f\x1b[7m     .     \x1b[m\x0f\x0e\x1b[7mx\x1b[m\
    \x0f\x0f\x1b[7m                                        \x1b[m\x0f\x0e\x1b[7mx\x1b[m\x0f\x0f\x1b[7m \x1b[m\x0f \
    \x1b[6;7H\x1b[7m \x1b[m\x0f\x0e\x1b[7mx\x1b[m\x0f\x0f\x1b[7m \x1b[m\x0f\x0e\x1b[7mx\x1b[m\x0f\x0f\x1b[7m \x1b[\
    m\x0f\x0e\x1b[7mx\x1b[m\x0f\x0f\x1b[7m \x1b[m\x0f\x0e\x1b[7mx\x1b[m\x0f\x0f\x1b[7m \x1b[m\x0f\x0e\x1b[7mk\x1b[\
    m\x0f\x0f\x1b[7m \x1b[m\x0f\x0e\x1b[7mlqu\x1b[m\x0f\x0f\x1b[7m \x1b[m\x0f\x0e\x1b[7mwqk\x1b[m\x0f\x0f\x1b[7m \
    \x1b[m\x0f\x0e\x1b[7mk\x1b[m\x0f\x0f\x1b[7m \x1b[m\x0f\x0e\x1b[7mlqw\x1b[m\x0f\x0f\x1b[7m \x1b[m\x0f\x0e\x1b[7\
    mtqk\x1b[m\x0f\x0f\x1b[7m \x1b[m\x0f\x0e\x1b[7mn\x1b[m\x0f\x0f\x1b[7m                                    \x1b[\
    m\x0f\x0e\x1b[7mx\x1b[m\x0f\x0f\x1b[7m \x1b[m\x0f \x1b[7;7H\x1b[7m \x1b[m\x0f\x0e\x1b[7mx\x1b[m\x0f\x0f\x1b[7m\
    \x20\x1b[m\x0f\x0e\x1b[7mx\x1b[m\x0f\x0f\x1b[7m \x1b[m\x0f\x0e\x1b[7mx\x1b[m\x0f\x0f\x1b[7m \x1b[m\x0f\x0e\x1b\
    [7mx\x1b[m\x0f\x0f\x1b[7m \x1b[m\x0f\x0e\x1b[7mx\x1b[m\x0f\x0f\x1b[7m \x1b[m\x0f\x0e\x1b[7mx\x1b[m\x0f\x0f\x1b\
    [7m \x1b[m\x0f\x0e\x1b[7mx\x1b[m\x0f\x0f\x1b[7m \x1b[m\x0f\x0e\x1b[7mx\x1b[m\x0f\x0f\x1b[7m \x1b[m\x0f\x0e\x1b\
    [7mx\x1b[m\x0f\x0f\x1b[7m \x1b[m\x0f\x0e\x1b[7mx\x1b[m\x0f\x0f\x1b[7m \x1b[m\x0f\x0e\x1b[7mx\x1b[m\x0f\x0f\x1b\
    [7m \x1b[m\x0f\x0e\x1b[7mx\x1b[m\x0f\x0f\x1b[7m \x1b[m\x0f\x0e\x1b[7mx\x1b[m\x0f\x0f\x1b[7m \x1b[m\x0f\x0e\x1b\
    [7mx\x1b[m\x0f\x0f\x1b[7m \x1b[m\x0f\x0e\x1b[7mx\x1b[m\x0f\x0f\x1b[7m                                    \x1b[\
    m\x0f\x0e\x1b[7mx\x1b[m\x0f\x0f\x1b[7m \x1b[m\x0f \x1b[8;7H\x1b[7m \x1b[m\x0f\x0e\x1b[7mx\x1b[m\x0f\x0f\x1b[7m\
    \x20\x1b[m\x0f\x0e\x1b[7mv\x1b[m\x0f\x0f\x1b[7m   \x1b[m\x0f\x0e\x1b[7mv\x1b[m\x0f\x0f\x1b[7m \x1b[m\x0f\x0e\
    \x1b[7mv\x1b[m\x0f\x0f\x1b[7m \x1b[m\x0f\x0e\x1b[7mmqv\x1b[m\x0f\x0f\x1b[7m \x1b[m\x0f\x0e\x1b[7mv\x1b[m\x0f\
    \x0f\x1b[7m \x1b[m\x0f\x0e\x1b[7mv\x1b[m\x0f\x0f\x1b[7m \x1b[m\x0f\x0e\x1b[7mv\x1b[m\x0f\x0f\x1b[7m \x1b[m\x0f\
    \x0e\x1b[7mmqu\x1b[m\x0f\x0f\x1b[7m \x1b[m\x0f\x0e\x1b[7mv\x1b[m\x0f\x0f\x1b[7m \x1b[m\x0f\x0e\x1b[7mv\x1b[m\
    \x0f\x0f\x1b[7m \x1b[m\x0f\x0e\x1b[7mmj\x1b[m\x0f\x0f\x1b[7m                                   \x1b[m\x0f\x0e\
    \x1b[7mx\x1b[m\x0f\x0f\x1b[7m \x1b[5C\x1b[9;7H \x1b[m\x0f\x0e\x1b[7mx\x1b[m\x0f\x0f\x1b[7m     \x1b[m\x0f\x0e\
    \x1b[7mqqqqqq\x1b[m\x0f\x0f\x1b[7mCommander\x1b[m\x0f\x0e\x1b[7mqj\x1b[m\x0f\x0f\x1b[7m 4.8.29                \
    \x20                  \x1b[m\x0f\x0e\x1b[7mx\x1b[m\x0f\x0f\x1b[7m \x1b[5C\x1b[10;7H \x1b[m\x0f\x0e\x1b[7mx\x1b\
    [m\x0f\x0f\x1b[7m                                                                \x1b[m\x0f\x0e\x1b[7mx\x1b[m\
    \x0f\x0f\x1b[7m \x1b[5C\x1b[11;7H \x1b[m\x0f\x0e\x1b[7mx\x1b[m\x0f\x0f\x1b[7mThis is the main help screen for \
    GNU Midnight Commander.        \x1b[m\x0f\x0e\x1b[7mx\x1b[m\x0f\x0f\x1b[7m \x1b[5C\x1b[12;7H \x1b[m\x0f\x0e\
    \x1b[7mx\x1b[m\x0f\x0f\x1b[7m                                                                \x1b[m\x0f\x0e\
    \x1b[7mx\x1b[m\x0f\x0f\x1b[7m \x1b[5C\x1b[13;7H \x1b[m\x0f\x0e\x1b[7mx\x1b[m\x0f\x0f\x1b[7mTo learn more on ho\
    w to use the interactive help facility just  \x1b[m\x0f\x0e\x1b[7mx\x1b[m\x0f\x0f\x1b[7m \x1b[5C\x1b[14;7H \
    \x1b[m\x0f\x0e\x1b[7mx\x1b[m\x0f\x0f\x1b[7mpress \x1b[m\x0f\x1b[1mEnter\x1b[m\x0f\x1b[7m.  You may want to go \
    directly to the help contents. \x1b[m\x0f\x0e\x1b[7mx\x1b[m\x0f\x0f\x1b[7m \x1b[5C\x1b[15;7H \x1b[m\x0f\x0e\
    \x1b[7mx\x1b[m\x0f\x0f\x1b[7m                                                                \x1b[m\x0f\x0e\
    \x1b[7mx\x1b[m\x0f\x0f\x1b[7m \x1b[5C\x1b[16;7H \x1b[m\x0f\x0e\x1b[7mx\x1b[m\x0f\x0f\x1b[7mGNU Midnight Comman\
    der is written by its authors.               \x1b[m\x0f\x0e\x1b[7mx\x1b[m\x0f\x0f\x1b[7m \x1b[5C\x1b[17;7H \
    \x1b[m\x0f\x0e\x1b[7mx\x1b[m\x0f\x0f\x1b[7m                                                                \
    \x1b[m\x0f\x0e\x1b[7mx\x1b[m\x0f\x0f\x1b[7m \x1b[5C\x1b[18;7H \x1b[m\x0f\x0e\x1b[7mx\x1b[m\x0f\x0f\x1b[7mGNU M\
    idnight Commander comes with ABSOLUTELY NO WARRANTY. This  \x1b[m\x0f\x0e\x1b[7mx\x1b[m\x0f\x0f\x1b[7m \x1b[5C\
    \x1b[19;7H \x1b[m\x0f\x0e\x1b[7mx\x1b[m\x0f\x0f\x1b[7mis free software, and you are welcome to redistribute it\
    \x20under  \x1b[m\x0f\x0e\x1b[7mx\x1b[m\x0f\x0f\x1b[7m \x1b[20;7H \x1b[m\x0f\x0e\x1b[7mx\x1b[m\x0f\x0f\x1b[7mt\
    erms of GNU General Public License.                            \x1b[m\x0f\x0e\x1b[7mx\x1b[m\x0f\x0f\x1b[7m \
    \x1b[5C\x1b[21;7H \x1b[m\x0f\x0e\x1b[7mx\x1b[m\x0f\x0f\x1b[7m                                                 \
    \x20              \x1b[m\x0f\x0e\x1b[7mx\x1b[m\x0f\x0f\x1b[7m \x1b[22;7H \x1b[m\x0f\x0e\x1b[7mmqqqqqqqqqqqqqqq\
    qqqqqqqqqqqqqqqqqqqqqqqqqqqqqqqqqqqqqqqqqqqqqqqqqj\x1b[m\x0f\x0f\x1b[7m \x1b[23;7H                            \
    \x20                                       \x1b[m\x0f   \x1b[24;11H\x1b[7mIndex \x1b[m\x0f 3\x1b[7mPrev  \x1b[\
    m\x0f 4\x1b[7m      \x1b[m\x0f 5\x1b[7m      \x1b[m\x0f 6\x1b[7m      \x1b[m\x0f 7\x1b[7m      \x1b[m\x0f 8\
    \x1b[7m      \x1b[m\x0f 9\x1b[7m      \x1b[24;80H\x1b[2;7Hmp/demo/left \x1b[m\x0f\x0eqqqqqqqqqqqqqqq\x1b[m\x0f\
    \x0f.[^]>\x0ekl\x1b[m\x0f\x0f<\x0eq\x1b[m\x0f\x0f /tmp/demo/right \x0eqqqqqqqqqqqqqq\x1b[3;7H\x1b[m\x0f\x0f  N\
    ame      \x0ex\x1b[m\x0f\x0f Size  \x0ex\x1b[m\x0f\x0fModify time \x0exx\x1b[m\x0f\x0f.n     Name      \x0ex\
    \x1b[m\x0f\x0f Size  \x0ex\x1b[m\x0f\x0fModify \x1b[4;8H\x1b[7m           \x1b[m\x0f\x0e\x1b[7mx\x1b[m\x0f\x0f\
    \x1b[7mUP--DIR\x1b[m\x0f\x0e\x1b[7mx\x1b[m\x0f\x0f\x1b[7mNov 22 09:37\x1b[m\x0f\x0exx\x1b[m\x0f\x0f/..        \
    \x20     \x0ex\x1b[m\x0f\x0fUP--DIR\x0ex\x1b[m\x0f\x0fNov 22 \x1b[5;7H            \x0ex\x1b[m\x0f\x0f   4096\
    \x0ex\x1b[m\x0f\x0fJan  2  2026\x0exx\x1b[m\x0f\x0f/notes           \x0ex\x1b[m\x0f\x0f   4096\x0ex\x1b[m\x0f\
    \x0fJan  2  \x1b[6;7H            \x0ex\x1b[m\x0f\x0f   4096\x0ex\x1b[m\x0f\x0fJan  2  2026\x0exx\x1b[m\x0f\x0f\
    /old             \x0ex\x1b[m\x0f\x0f   4096\x0ex\x1b[m\x0f\x0fJan  2  \x1b[7;7Ho.c         \x0ex\x1b[m\x0f\x0f\
    \x20     6\x0ex\x1b[m\x0f\x0fJan  2  2026\x0exx\x1b[m\x0f\x0f table.tsv       \x0ex\x1b[m\x0f\x0f      4\x0ex\
    \x1b[m\x0f\x0fJan  2  \x1b[8;7Hers.txt     \x0ex\x1b[m\x0f\x0f    111\x0ex\x1b[m\x0f\x0fJan  2  2026\x0exx\x1b\
    [m\x0f\x0f                 \x0ex\x1b[m\x0f\x0f       \x0ex\x1b[m\x0f\x0f       \x1b[5C\x1b[9;7H            \
    \x0ex\x1b[m\x0f\x0f       \x0ex\x1b[m\x0f\x0f            \x0exx\x1b[m\x0f\x0f                 \x0ex\x1b[m\x0f\
    \x0f       \x0ex\x1b[m\x0f\x0f       \x1b[5C\x1b[10;7H            \x0ex\x1b[m\x0f\x0f       \x0ex\x1b[m\x0f\
    \x0f            \x0exx\x1b[m\x0f\x0f                 \x0ex\x1b[m\x0f\x0f       \x0ex\x1b[m\x0f\x0f       \x1b[\
    5C\x1b[11;7H            \x0ex\x1b[m\x0f\x0f       \x0ex\x1b[m\x0f\x0f            \x0exx\x1b[m\x0f\x0f         \
    \x20       \x0ex\x1b[m\x0f\x0f       \x0ex\x1b[m\x0f\x0f       \x1b[5C\x1b[12;7H            \x0ex\x1b[m\x0f\
    \x0f       \x0ex\x1b[m\x0f\x0f            \x0exx\x1b[m\x0f\x0f                 \x0ex\x1b[m\x0f\x0f       \x0ex\
    \x1b[m\x0f\x0f       \x1b[5C\x1b[13;7H            \x0ex\x1b[m\x0f\x0f       \x0ex\x1b[m\x0f\x0f            \
    \x0exx\x1b[m\x0f\x0f                 \x0ex\x1b[m\x0f\x0f       \x0ex\x1b[m\x0f\x0f       \x1b[5C\x1b[14;7H    \
    \x20       \x0ex\x1b[m\x0f\x0f       \x0ex\x1b[m\x0f\x0f            \x0exx\x1b[m\x0f\x0f                 \x0ex\
    \x1b[m\x0f\x0f       \x0ex\x1b[m\x0f\x0f       \x1b[5C\x1b[15;7H            \x0ex\x1b[m\x0f\x0f       \x0ex\
    \x1b[m\x0f\x0f            \x0exx\x1b[m\x0f\x0f                 \x0ex\x1b[m\x0f\x0f       \x0ex\x1b[m\x0f\x0f  \
    \x20    \x1b[5C\x1b[16;7H            \x0ex\x1b[m\x0f\x0f       \x0ex\x1b[m\x0f\x0f            \x0exx\x1b[m\x0f\
    \x0f                 \x0ex\x1b[m\x0f\x0f       \x0ex\x1b[m\x0f\x0f       \x1b[5C\x1b[17;7H            \x0ex\
    \x1b[m\x0f\x0f       \x0ex\x1b[m\x0f\x0f            \x0exx\x1b[m\x0f\x0f                 \x0ex\x1b[m\x0f\x0f  \
    \x20    \x0ex\x1b[m\x0f\x0f       \x1b[5C\x1b[18;7H            \x0ex\x1b[m\x0f\x0f       \x0ex\x1b[m\x0f\x0f  \
    \x20         \x0exx\x1b[m\x0f\x0f                 \x0ex\x1b[m\x0f\x0f       \x0ex\x1b[m\x0f\x0f       \x1b[5C\
    \x1b[19;7H\x0eqqqqqqqqqqqqqqqqqqqqqqqqqqqqqqqqqutqqqqqqqqqqqqqqqqqqqqqqqqqqqqqqqqq\x1b[20;7H\x1b[m\x0f\x0fIR  \
    \x20                            \x0exx\x1b[m\x0f\x0fUP--DIR                          \x1b[5C\x1b[21;7H\x0eqqqq\
    qqqqqqqqq\x1b[m\x0f\x0f 206G / 252G (81%) \x0eqjmqqqqqqqqqqqqqqqqqq\x1b[m\x0f\x0f 206G / 252G (8\x1b[22;7HTab \
    changes your current panel.\x1b[K\x1b[23;7H                                                                   \
    \x20   \x1b[24;11H\x1b[7mMenu  \x1b[m\x0f 3\x1b[7mView  \x1b[m\x0f 4\x1b[7mEdit  \x1b[m\x0f 5\x1b[7mCopy  \x1b\
    [m\x0f 6\x1b[7mRenMov\x1b[m\x0f 7\x1b[7mMkdir \x1b[m\x0f 8\x1b[7mDelete\x1b[m\x0f 9\x1b[7mPullDn\x1b[23;3H\x1b\
    [1;1H\x1b[m\x0f\x1b[K\n\x1b[K\n\x1b[K\n\x1b[K\n\x1b[K\n\x1b[K\n\x1b[K\n\x1b[K\n\x1b[K\n\x1b[K\n\x1b[K\n\x1b[K\
    \n\x1b[K\n\x1b[K\n\x1b[K\n\x1b[K\n\x1b[K\n\x1b[K\n\x1b[K\n\x1b[K\n\x1b[K\n\x1b[K\n\x1b[K\x1b[24;2H\x1b[K\x1b[1\
    ;80H\x1b[?2004l\x1b[?1l\x1b>\x1b[24;1H\x1b[m\x0f\r                                                            \
    \x20                  \r\r\n";

pub(super) const TOUR: &[u8] = b"\
    \x1b(B\x1b)0\x1b[1;24r\x1b[m\x0f\x1b[?7h\x1b[?1h\x1b=\x1b[?1h\x1b=\x1b[?1h\x1b=\x1b[H\x1b[J\x1b[6;16H\x1b[0;7m\
    \x0elqqqqqqqqqqqqqqqqqq\x1b[0;7m\x0fRecordings\x1b[0;7m\x0eqqqqqqqqqqqqqqqqqqqqk\x0f\x1b[m\x0f\x1b[7;16H\x1b[0\
    ;7m\x0ex\x1b[0;7m\x0f What would you like to do?                     \x1b[0;7m\x0ex\x0f\x1b[m\x0f\x1b[8;16H\
    \x1b[0;7m\x0ex\x1b[0;7m\x0f \x1b[0;7m\x0elqqqqqqqqqqqqqqqqqqqqqqqqqqqqqqqqqqqqqqqqqqqqk\x1b[0;7m\x0f \x1b[0;7m\
    \x0ex\x0f\x1b[m\x0f\x1b[9;16H\x1b[0;7m\x0ex\x1b[0;7m\x0f \x1b[0;7m\x0ex\x1b[0;7m\x0f        \x1b[0;1m\x0fd\x1b\
    [0;7m\x0fue      \x1b[m\x0fbytes by a moment\x1b[0;7m\x0f          \x1b[0;7m\x0ex\x1b[0;7m\x0f \x1b[0;7m\x0ex\
    \x0f\x1b[m\x0f\x1b[10;16H\x1b[0;7m\x0ex\x1b[0;7m\x0f \x1b[0;7m\x0ex\x1b[0;7m\x0f        \x1b[m\x0fi\x1b[0;7m\
    \x0fnfo     what it holds              \x1b[0;7m\x0ex\x1b[0;7m\x0f \x1b[0;7m\x0ex\x0f\x1b[m\x0f\x1b[11;16H\x1b\
    [0;7m\x0ex\x1b[0;7m\x0f \x1b[0;7m\x0ex\x1b[0;7m\x0f        \x1b[m\x0fs\x1b[0;7m\x0fcreen   what stood there   \
    \x20       \x1b[0;7m\x0ex\x1b[0;7m\x0f \x1b[0;7m\x0ex\x0f\x1b[m\x0f\x1b[12;16H\x1b[0;7m\x0ex\x1b[0;7m\x0f \x1b\
    [0;7m\x0ex\x1b[0;7m\x0f        \x1b[m\x0fc\x1b[0;7m\x0fhanges  what changed               \x1b[0;7m\x0ex\x1b[0\
    ;7m\x0f \x1b[0;7m\x0ex\x0f\x1b[m\x0f\x1b[13;16H\x1b[0;7m\x0ex\x1b[0;7m\x0f \x1b[0;7m\x0ex\x1b[0;7m\x0f        \
    \x1b[m\x0fs\x1b[0;7m\x0fave     edits, written back        \x1b[0;7m\x0ex\x1b[0;7m\x0f \x1b[0;7m\x0ex\x0f\x1b[\
    m\x0f\x1b[14;16H\x1b[0;7m\x0ex\x1b[0;7m\x0f \x1b[0;7m\x0ex\x1b[0;7m\x0f                                       \
    \x20    \x1b[0;7m\x0ex\x1b[0;7m\x0f \x1b[0;7m\x0ex\x0f\x1b[m\x0f\x1b[15;16H\x1b[0;7m\x0ex\x1b[0;7m\x0f \x1b[0;\
    7m\x0ex\x1b[0;7m\x0f                                            \x1b[0;7m\x0ex\x1b[0;7m\x0f \x1b[0;7m\x0ex\x0f\
    \x1b[m\x0f\x1b[16;16H\x1b[0;7m\x0ex\x1b[0;7m\x0f \x1b[0;7m\x0emqqqqqqqqqqqqqqqqqqqqqqqqqqqqqqqqqqqqqqqqqqqqj\
    \x1b[0;7m\x0f \x1b[0;7m\x0ex\x0f\x1b[m\x0f\x1b[17;16H\x1b[0;7m\x0etqqqqqqqqqqqqqqqqqqqqqqqqqqqqqqqqqqqqqqqqqqq\
    qqqqqu\x0f\x1b[m\x0f\x1b[18;16H\x1b[0;7m\x0ex\x1b[0;7m\x0f                                                \x1b\
    [0;7m\x0ex\x0f\x1b[m\x0f\x1b[19;16H\x1b[0;7m\x0emqqqqqqqqqqqqqqqqqqqqqqqqqqqqqqqqqqqqqqqqqqqqqqqqj\x0f\x1b[m\
    \x0f\x1b[3A\x08\x08\x1b[0;7m\x0e\x0f\x1b[m\x0f\x1b[18;28H\x1b[0;1m\x0f<\x1b[m\x0f  OK  \x1b[0;1m\x0f>\x1b[6C\
    \x1b[0m\x0f<\x1b[m\x0fCancel\x1b[0m\x0f>\x1b[18;31H\x1b[m\x0f\x1b[9;27Hd\x1b[9;36H\x1b[0;7m\x0fbytes by a mome\
    nt\x1b[10;27H\x1b[0;1m\x0fi\x1b[10;36H\x1b[m\x0fwhat it holds\x1b[18;31H\x1b[10;27Hi\x1b[10;36H\x1b[0;7m\x0fwh\
    at it holds\x1b[11;27H\x1b[0;1m\x0fs\x1b[11;36H\x1b[m\x0fwhat stood there\x1b[18;31H\x1b[11;27Hs\x1b[11;36H\
    \x1b[0;7m\x0fwhat stood there\x1b[12;27H\x1b[0;1m\x0fc\x1b[12;36H\x1b[m\x0fwhat changed\x1b[18;31H\x1b[11;27H\
    \x1b[0;1m\x0fs\x1b[11;36H\x1b[m\x0fwhat stood there\x1b[12;27Hc\x1b[12;36H\x1b[0;7m\x0fwhat changed\x1b[18;31H\
    \x1b[m\x0f\x1b[6B\x1b[49C\x1b[24;1H\r\x1b[?1l\x1b>\x1b[?2004h\x1b(B\x1b)0\x1b[1;24r\x1b[m\x0f\x1b[?7h\x1b[?1h\
    \x1b=\x1b[?1h\x1b=\x1b[H\x1b[J\x1b[22;34H\x1b[0;7m\x0f[ Reading... ]\x1b[m\x0f\x1b[22;33H\x1b[0;7m\x0f[ Read 2\
    \x20lines ]\x1b[m\x0f\x1b[H\x1b[0;7m\x0f  GNU nano 7.2                      notes.txt                       Re\
    stricted  \x1b[1;79H\x1b[m\x0f\r\x1b[22B\x1b[0;7m\x0f^G\x1b[m\x0f Help\x1b[6C\x1b[0;7m\x0f^O\x1b[m\x0f Write O\
    ut \x1b[0;7m\x0f^W\x1b[m\x0f Where Is  \x1b[0;7m\x0f^K\x1b[m\x0f Cut\x1b[7C\x1b[0;7m\x0f^C\x1b[m\x0f Location \
    \x20\x1b[0;7m\x0fM-U\x1b[m\x0f Undo\r\x1b[1B\x1b[0;7m\x0f^X\x1b[m\x0f Exit\x1b[6C\x1b[0;7m\x0f^J\x1b[m\x0f Jus\
    tify   \x1b[0;7m\x0f^\\\x1b[m\x0f Replace   \x1b[0;7m\x0f^U\x1b[m\x0f Paste     \x1b[0;7m\x0f^/\x1b[m\x0f Go T\
    o Line\x1b[0;7m\x0fM-E\x1b[m\x0f Redo\r\x1b[22AA recording is a header, chunks and a trailer.\r\x1b[1BEach chu\
    nk is due at the sum of the delays up to its own.\r\x1b[1A\x1b[1B\x1b[1B\x1b[1;37H\x1b[0;7m\x0f notes.txt\x1b[\
    1;69H  Modified\x1b[m\x0f\r\x1b[3BSeek to a moment.\r\x1b[18B\x1b[K\x1b[17A\x1b[1A\x1b[1A\x1b[3;58H Good.\r\
    \x1b[19B\x1b[0;7m\x0fSave modified buffer?                                                           \x1b[23;1\
    H Y\x1b[m\x0f Yes\x1b[K\r\x1b[1B\x1b[0;7m\x0f N\x1b[m\x0f No  \x1b[6C   \x1b[0;7m\x0f^C\x1b[m\x0f Cancel\x1b[K\
    \x1b[2A\x08\x08\x08\r\x1b[J\x1b[2B\x1b[24;1H\r\x1b[?1l\x1b>\x1b[?2004l\x1b(B\x1b)0\x1b[1;24r\x1b[m\x0f\x1b[?7h\
    \x1b[?1h\x1b=\x1b[?1h\x1b=\x1b[H\x1b[J\x1b[9;16H\x1b[0;7m\x0elqqqqqqqqqqqqqqqqqqq\x1b[0;7m\x0fSeeking\x1b[0;7m\
    \x0eqqqqqqqqqqqqqqqqqqqqqqk\x0f\x1b[m\x0f\x1b[10;16H\x1b[0;7m\x0ex\x1b[0;7m\x0f Feeding chunks                \
    \x20                \x1b[0;7m\x0ex\x0f\x1b[m\x0f\x1b[11;16H\x1b[0;7m\x0ex\x1b[0;7m\x0f                        \
    \x20                       \x1b[0;7m\x0ex\x0f\x1b[m\x0f\x1b[12;16H\x1b[0;7m\x0ex\x1b[0;7m\x0f                 \
    \x20                              \x1b[0;7m\x0ex\x0f\x1b[m\x0f\x1b[13;16H\x1b[0;7m\x0ex\x1b[0;7m\x0f  \x1b[0;7\
    m\x0elqqqqqqqqqqqqqqqqqqqqqqqqqqqqqqqqqqqqqqqqqqk\x1b[0;7m\x0f  \x1b[0;7m\x0ex\x0f\x1b[m\x0f\x1b[14;16H\x1b[0;\
    7m\x0ex\x1b[0;7m\x0f  \x1b[0;7m\x0ex\x1b[0;7m\x0f                     0%                   \x1b[0;7m\x0ex\x1b[\
    0;7m\x0f  \x1b[0;7m\x0ex\x0f\x1b[m\x0f\x1b[15;16H\x1b[0;7m\x0ex\x1b[0;7m\x0f  \x1b[0;7m\x0emqqqqqqqqqqqqqqqqqq\
    qqqqqqqqqqqqqqqqqqqqqqqqj\x1b[0;7m\x0f  \x1b[0;7m\x0ex\x0f\x1b[m\x0f\x1b[16;16H\x1b[0;7m\x0emqqqqqqqqqqqqqqqqq\
    qqqqqqqqqqqqqqqqqqqqqqqqqqqqqqqj\x0f\x1b[m\x0f\x1b[14;20H\x1b[0;7m\x0e\x0f\x1b[m\x0f    \x1b[14;40H\x1b[0;7m\
    \x0f1\x1b[14;24H\x1b[m\x0f\x08\x08\x08\x08          \x1b[14;40H\x1b[0;7m\x0f25\x1b[14;30H\x1b[m\x0f      \x1b[\
    0;7m\x0f    40\x1b[6D\x1b[m\x0f    60%  \x1b[5D80%          \x1b[14;39H10\x1b[14;53H         \x1b[10B\x1b[18C\
    \x1b[24;1H\r\x1b[?1l\x1b>\x1b(B\x1b)0\x1b[1;24r\x1b[m\x0f\x1b[?7h\x1b[?1h\x1b=\x1b[?1h\x1b=\x1b[H\x1b[J\x1b[9;\
    21H\x1b[0;7m\x0elqqqqqqqqqqqqqq\x1b[0;7m\x0fTypetool\x1b[0;7m\x0eqqqqqqqqqqqqqqqqk\x0f\x1b[m\x0f\x1b[10;21H\
    \x1b[0;7m\x0ex\x1b[0;7m\x0f                                      \x1b[0;7m\x0ex\x0f\x1b[m\x0f\x1b[11;21H\x1b[0\
    ;7m\x0ex\x1b[0;7m\x0f                                      \x1b[0;7m\x0ex\x0f\x1b[m\x0f\x1b[12;21H\x1b[0;7m\
    \x0ex\x1b[0;7m\x0f                                      \x1b[0;7m\x0ex\x0f\x1b[m\x0f\x1b[13;21H\x1b[0;7m\x0ex\
    \x1b[0;7m\x0f                                      \x1b[0;7m\x0ex\x0f\x1b[m\x0f\x1b[14;21H\x1b[0;7m\x0etqqqqqq\
    qqqqqqqqqqqqqqqqqqqqqqqqqqqqqqqqu\x0f\x1b[m\x0f\x1b[15;21H\x1b[0;7m\x0ex\x1b[0;7m\x0f         \x1b[0;1m\x0f<\
    \x1b[m\x0f \x1b[0;4m\x0fY\x1b[m\x0fes \x1b[0;1m\x0f>\x1b[0;7m\x0f     \x1b[0m\x0f<\x1b[m\x0f \x1b[0;4m\x0fN\
    \x1b[m\x0fo  \x1b[0m\x0f>\x1b[0;7m\x0f          \x1b[0;7m\x0ex\x0f\x1b[m\x0f\x1b[16;21H\x1b[0;7m\x0emqqqqqqqqq\
    qqqqqqqqqqqqqqqqqqqqqqqqqqqqqj\x0f\x1b[m\x0f\x1b[15;33H\x1b[0;7m\x0e\x0f\x1b[m\x0f\x1b[10;23H\x1b[0;7m\x0fSeek\
    \x20to 12.5 seconds?\x1b[15;33H\x1b[m\x0f\x08\x08\x1b[0m\x0f<\x1b[m\x0f \x1b[0;4m\x0fY\x1b[m\x0fes \x1b[0m\x0f\
    >\x1b[0;7m\x0f     \x1b[0;1m\x0f<\x1b[m\x0f \x1b[0;4m\x0fN\x1b[m\x0fo  \x1b[0;1m\x0f>\x1b[5D\x1b[m\x0f\x1b[15;\
    31H\x1b[0;1m\x0f<\x1b[m\x0f \x1b[0;4m\x0fY\x1b[m\x0fes \x1b[0;1m\x0f>\x1b[0;7m\x0f     \x1b[0m\x0f<\x1b[m\x0f \
    \x1b[0;4m\x0fN\x1b[m\x0fo  \x1b[0m\x0f>\x1b[15;33H\x1b[m\x0f\x1b[9B\x1b[47C\x1b[24;1H\r\x1b[?1l\x1b>\x1b[?1h\
    \x1b=\r   0    0.00 s  retime cut mend screen seek seek\r\n   1    0.37 s  due seek retime due seek due\r\n   \
    2    0.74 s  cut seek seek mend mend seek\r\n   3    1.11 s  cut seek due mend seek due\r\n   4    1.48 s  see\
    k cut screen screen due seek\r\n   5    1.85 s  due due mend seek cut seek\r\n   6    2.22 s  due cut retime m\
    end cut due\r\n   7    2.59 s  seek due retime due screen cut\r\n   8    2.96 s  seek due due screen cut retim\
    e\r\n   9    3.33 s  seek due screen seek due seek\r\n  10    3.70 s  due cut mend screen due mend\r\n  11    \
    4.07 s  retime mend due mend retime retime\r\n  12    4.44 s  cut cut screen cut seek due\r\n  13    4.81 s  r\
    etime due mend retime screen mend\r\n  14    5.18 s  retime due seek seek due mend\r\n  15    5.55 s  cut reti\
    me cut mend mend seek\r\n  16    5.92 s  screen seek due due retime retime\r\n  17    6.29 s  screen retime du\
    e mend due mend\r\n  18    6.66 s  seek seek retime mend screen screen\r\n  19    7.03 s  seek seek screen scr\
    een retime screen\r\n  20    7.40 s  due screen mend retime screen mend\r\n  21    7.77 s  screen retime seek \
    mend retime cut\r\n  22    8.14 s  due seek mend seek cut retime\r\n\x1b[7mtable.txt\x1b[m\x1b[K\r\x1b[K  23  \
    \x20 8.51 s  cut screen cut mend mend mend\r\n  24    8.88 s  seek cut mend mend due retime\r\n  25    9.25 s \
    \x20cut mend due retime screen mend\r\n  26    9.62 s  retime screen mend cut cut seek\r\n  27    9.99 s  cut \
    cut cut screen cut seek\r\n  28   10.36 s  mend due cut retime retime seek\r\n  29   10.73 s  cut mend due ret\
    ime due due\r\n  30   11.10 s  retime cut screen due due screen\r\n  31   11.47 s  screen screen seek mend scr\
    een due\r\n  32   11.84 s  mend mend mend mend seek mend\r\n  33   12.21 s  screen mend seek cut seek cut\r\n \
    \x2034   12.58 s  mend cut seek retime due seek\r\n  35   12.95 s  seek seek due cut due seek\r\n  36   13.32 \
    s  retime due seek seek cut due\r\n  37   13.69 s  mend cut screen retime retime due\r\n  38   14.06 s  retime\
    \x20mend seek seek mend mend\r\n  39   14.43 s  mend mend retime seek cut seek\r\n\x1b[7m(END)\x1b[m\x1b[K\r\
    \x1b[K\x1b[H\x1bM  16    5.92 s  screen seek due due retime retime\r\n\x1b[H\x1bM  15    5.55 s  cut retime cu\
    t mend mend seek\r\n\x1b[H\x1bM  14    5.18 s  retime due seek seek due mend\r\n\x1b[H\x1bM  13    4.81 s  ret\
    ime due mend retime screen mend\r\n\x1b[H\x1bM  12    4.44 s  cut cut screen cut seek due\r\n\x1b[H\x1bM  11  \
    \x20 4.07 s  retime mend due mend retime retime\r\n\x1b[H\x1bM  10    3.70 s  due cut mend screen due mend\r\n\
    \x1b[H\x1bM   9    3.33 s  seek due screen seek due seek\r\n\x1b[H\x1bM   8    2.96 s  seek due due screen cut\
    \x20retime\r\n\x1b[H\x1bM   7    2.59 s  seek due retime due screen cut\r\n\x1b[H\x1bM   6    2.22 s  due cut \
    retime mend cut due\r\n\x1b[H\x1bM   5    1.85 s  due due mend seek cut seek\r\n\x1b[H\x1bM   4    1.48 s  see\
    k cut screen screen due seek\r\n\x1b[H\x1bM   3    1.11 s  cut seek due mend seek due\r\n\x1b[H\x1bM   2    0.\
    74 s  cut seek seek mend mend seek\r\n\x1b[H\x1bM   1    0.37 s  due seek retime due seek due\r\n\x1b[H\x1bM  \
    \x200    0.00 s  retime cut mend screen seek seek\r\n\x1b[24;1H\r\x1b[K:\x1b[K\r\x1b[K...skipping...\r\n  17  \
    \x20 6.29 s  screen retime due mend due mend\r\n  18    6.66 s  seek seek retime mend screen screen\r\n  19   \
    \x207.03 s  seek seek screen screen retime screen\r\n  20    7.40 s  due screen mend retime screen mend\r\n  2\
    1    7.77 s  screen retime seek mend retime cut\r\n  22    8.14 s  due seek mend seek cut retime\r\n  23    8.\
    51 s  cut screen cut mend mend mend\r\n  24    8.88 s  seek cut mend mend due retime\r\n  25    9.25 s  cut me\
    nd due retime screen mend\r\n  26    9.62 s  retime screen mend cut cut seek\r\n  27    9.99 s  cut cut cut sc\
    reen cut seek\r\n  28   10.36 s  mend due cut retime retime seek\r\n  29   10.73 s  cut mend due retime due du\
    e\r\n  30   11.10 s  retime cut screen due due screen\r\n  31   11.47 s  screen screen seek mend screen due\r\
    \n  32   11.84 s  mend mend mend mend seek mend\r\n  33   12.21 s  screen mend seek cut seek cut\r\n  34   12.\
    58 s  mend cut seek retime due seek\r\n  35   12.95 s  seek seek due cut due seek\r\n  36   13.32 s  retime du\
    e seek seek cut due\r\n  37   13.69 s  mend cut screen retime retime due\r\n  38   14.06 s  retime mend seek s\
    eek mend mend\r\n  39   14.43 s  mend mend retime seek cut seek\r\n\x1b[7m(END)\x1b[m\x1b[K\r\x1b[K\x1b[?1l\
    \x1b>done\r\n";
