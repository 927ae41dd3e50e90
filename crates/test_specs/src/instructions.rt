// The text of code: of a specification, and of the instructions that it has none of.
use std::alloc::{AllocError, Global};
use std::process::Abort;
use std::test::Fail;
use tn_code::{Code, Instr, Kind, OnFault, check, dump};
use tn_compile::compile;
use tn_spec::{Dialect, Func, spec_of};
use tn_text::read_term;

/// Where the argument has no head, or one that isn't greater than 3, the first clause is skipped.
const SPEC: &[u8] = b"[{['$1'],[{'>',{hd,'$1'},3}],[]},{['_'],[],[{message,second}]}]";

const CODE: &str = "0 load_list r0
1 test_kind r0 list else 10
2 test_length r0 1 else 10
3 take_element r1 r0 0 else 10
4 apply hd r2 r1 else 10
5 load_constant r3 3
6 apply > r2 r2 r3 else 10
7 load_constant r3 true
8 test_equal r2 r3 else 10
9 end_match
10 load_list r0
11 test_kind r0 list else 17
12 test_length r0 1 else 17
13 take_element r1 r0 0 else 17
14 load_constant r2 second
15 perform call message r2 r2
16 end_match
17 end_no_match
";

/// Instructions of the other kinds.
const OTHERS: &str = "0 load_list r0
1 test_kind r0 tuple else 8
2 load_own_pid r1
3 load_caller r2
4 take_rest r3 r0 else 8
5 build tuple r4 r1 r2 r3
6 apply == r5 r4 r4 else 'EXIT'
7 jump 9
8 end_no_match
9 end_match
";

/// The instructions whose text is OTHERS.
fn others(alloc: Global) -> Result<Vec<Instr<Global>>, AllocError> {
    let fields = Vec::from_array(alloc, [1, 2, 3])?;
    let operands = Vec::from_array(alloc, [4, 4])?;
    let items = Vec::from_array(
        alloc,
        [
            Instr::LoadList { to: 0 },
            Instr::TestKind {
                from: 0,
                kind: Kind::Tuple,
                place: 8,
            },
            Instr::LoadOwnPid { to: 1 },
            Instr::LoadCaller { to: 2 },
            Instr::TakeRest {
                to: 3,
                from: 0,
                place: 8,
            },
            Instr::Build {
                kind: Kind::Tuple,
                to: 4,
                from: fields,
            },
            Instr::Apply {
                func: Func::Equal,
                to: 5,
                from: operands,
                on_fault: OnFault::Exit,
            },
            Instr::Jump { place: 9 },
            Instr::EndNoMatch,
            Instr::EndMatch,
        ],
    )?;
    Ok(items)
}

/// The code has this text.
fn check_text(
    rt: &impl Abort,
    alloc: Global,
    code: &Code<Global>,
    wanted: &str,
) -> Result<(), AllocError> {
    let mut text = Vec::new(alloc);
    dump(code, &mut text)?;
    assert_eq!(rt; text.as_slice(), wanted.as_bytes());
    Ok(())
}

#[test]
fn texts_of_code(rt: HostRuntime) -> Result<(), Fail> {
    let alloc = rt.alloc();
    let spec = spec_of(alloc, &read_term(alloc, SPEC)?, Dialect::Call)?;
    check_text(&rt, alloc, &compile(alloc, &spec)?, CODE)?;
    let code = check(others(alloc)?).ok_or("no code")?;
    check_text(&rt, alloc, &code, OTHERS)?;
    Ok(())
}
