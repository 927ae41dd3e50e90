// The texts of faults, for a library's user: no command prints them.
use std::alloc::Global;
use std::fmt::Display;
use std::process::Abort;
use std::test::Fail;
use tn_program::RuleFault;
use tn_script::ScriptFault;
use tn_text::TextFault;

const OF_TEXTS: [(TextFault, &str); 5] = [
    (TextFault::TooLong, "the text is too long"),
    (TextFault::Token { at: 10 }, "no term goes on so at 10"),
    (TextFault::TooDeep { at: 32 }, "too deep at 32"),
    (TextFault::TooLarge { at: 0 }, "too large at 0"),
    (TextFault::OutOfMemory, "out of memory"),
];

const OF_SCRIPTS: [(ScriptFault, &str); 7] = [
    (ScriptFault::TooLong, "the script is too long"),
    (ScriptFault::Token { at: 10 }, "no script goes on so at 10"),
    (ScriptFault::TooDeep { at: 32 }, "too deep at 32"),
    (ScriptFault::TooLarge { at: 0 }, "too large at 0"),
    (ScriptFault::Form { form: 256 }, "form 256 has no shape"),
    (ScriptFault::TooManyForms, "too many forms"),
    (ScriptFault::OutOfMemory, "out of memory"),
];

const OF_RULES: [(RuleFault, &str); 8] = [
    (RuleFault::Duplicate { form: 1 }, "duplicate in form 1"),
    (RuleFault::Undeclared { form: 2 }, "undeclared in form 2"),
    (RuleFault::NotExported { form: 3 }, "not exported in form 3"),
    (RuleFault::Unbound { form: 4 }, "unbound in form 4"),
    (RuleFault::TracerTaken { form: 5 }, "tracer taken in form 5"),
    (RuleFault::Arity { form: 6 }, "arity in form 6"),
    (RuleFault::Limit { form: 256 }, "limit in form 256"),
    (RuleFault::OutOfMemory, "out of memory"),
];

/// Each fault has its text.
fn check_texts<F: Display>(rt: &impl Abort, alloc: Global, rows: &[(F, &str)]) -> Result<(), Fail> {
    for (fault, text) in rows {
        let reported = format!(in alloc; "{fault}")?;
        assert!(rt; reported.as_str() == *text, "not so: {text}");
    }
    Ok(())
}

#[test]
fn texts_of_faults(rt: HostRuntime) -> Result<(), Fail> {
    check_texts(&rt, rt.alloc(), &OF_TEXTS)?;
    check_texts(&rt, rt.alloc(), &OF_SCRIPTS)?;
    check_texts(&rt, rt.alloc(), &OF_RULES)
}
