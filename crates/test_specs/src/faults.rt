// The texts of faults of specifications, as they are and among the fields of another value: no command prints them.
use std::alloc::Global;
use std::test::Fail;
use tn_spec::SpecFault;
use tn_term::Atom;

/// The texts of each fault but the one that names a function.
const TEXTS: [(SpecFault<Global>, &str, &str); 3] = [
    (SpecFault::Badarg, "badarg", "Badarg"),
    (SpecFault::TooLarge, "too large", "TooLarge"),
    (SpecFault::OutOfMemory, "out of memory", "OutOfMemory"),
];

#[test]
fn texts_of_faults(rt: HostRuntime) -> Result<(), Fail> {
    for (fault, reported, shown) in &TEXTS {
        let texts = format!(in rt.alloc(); "{fault} {fault:?}")?;
        let wanted = format!(in rt.alloc(); "{reported} {shown}")?;
        assert!(rt; texts.as_str() == wanted.as_str(), "not so: {wanted}");
    }
    let fault = SpecFault::Unsupported(Atom::of(rt.alloc(), "bsl")?);
    let texts = format!(in rt.alloc(); "{fault} {fault:?}")?;
    assert_eq!(rt;
        texts.as_str(),
        "unsupported function bsl Unsupported(\"bsl\")"
    );
    Ok(())
}
