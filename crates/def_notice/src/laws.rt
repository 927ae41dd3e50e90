// The laws of the lines on standard error.
ghost use Rattle.def_notice.specs.NoticeLaws.{FaultIsSaid, NoticeIsALine};

/// What is said has the line feeds of the words that it is given. Of its own it has one where it is two lines that
/// differ, two where it is a wrong value of the command line, and else none.
pub fn a_notice_is_one_line()
    ensures { NoticeIsALine }
{}

/// A fault is said, with the system's reason where there is one, unless whoever read the output is gone.
pub fn a_fault_is_said()
    ensures { FaultIsSaid }
{}
