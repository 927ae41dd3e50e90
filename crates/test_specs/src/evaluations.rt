// Evaluations that no command makes: by the clauses of a specification, and by code that is accepted again.
use bumpalo::Bump;
use linked_list_allocator::LocalHeap;
use std::alloc::{AllocError, Allocator};
use std::process::Abort;
use std::test::Fail;
use tn_action::{Context, Outcome, outcome};
use tn_code::{Code, check};
use tn_compile::compile;
use tn_flags::FlagTable;
use tn_guard::ListView;
use tn_machine::execute;
use tn_spec::{Dialect, Spec, spec_of};
use tn_term::{Alive, Term};
use tn_text::read_term;

/// Clauses whose heads match or don't, the second with a fault; then one with each kind of effect, a fault, values
/// that are made, and each action; then one with a head of no list.
const SPEC: &[u8] = b"[{['$1','$1'],[],[]},
  {['$1','$2'],[{hd,[{'div','$1',0}]}],[]},
  {['$1','$2'],[{'==',{{'$1',['$2']}},{{'$1',{tl,[a,'$2']}}}},{'andalso',{is_list,'$_'},{'orelse',7,true}}],
   [{message,[{{'$1','$2'}},'$_','$$',{hd,[]},{caller},{const,[a,{b}]}]},{return_trace},{exception_trace},
    {silent,true},{enable_trace,<0.101.0>,call},{disable_trace,call},{trace,[],[send]}]},
  {'$3',[{'>',{length,'$3'},2}],[{message,{self}}]}]";

/// Lists, each with the number of effects of the clause that fires.
const LISTS: [(&[u8], Option<usize>); 4] = [
    (b"[7,{x,[y]}]", Some(7)),
    (b"[b,b]", Some(0)),
    (b"[a,b,c]", Some(1)),
    (b"[a]", None),
];

/// The number of effects of an outcome; None where no clause fires.
fn effects<A: Allocator>(outcome: &Outcome<'_, A>) -> Option<usize> {
    match outcome {
        Outcome::NoMatch => None,
        Outcome::Matched(effects) => Some(effects.len()),
    }
}

/// The code of a copy of the specification's instructions, where that is accepted.
fn code_of_copies<A: Allocator + Copy>(
    alloc: A,
    spec: &Spec<A>,
) -> Result<Option<Code<A>>, AllocError> {
    let mut copies = Vec::new(alloc);
    for instr in compile(alloc, spec)?.instructions() {
        copies.push(instr.copy(alloc)?)?;
    }
    Ok(check(copies))
}

/// The outcome by clauses and that by code have so many effects.
fn check_outcomes<A: Allocator + Copy>(
    rt: &impl Abort,
    alloc: A,
    spec: &Spec<A>,
    list: &[Term<A>],
    wanted: Option<usize>,
) -> Result<(), Fail> {
    let context = Context {
        list: ListView::Terms(list),
        self_pid: 100,
        caller: None,
        alive: &Alive::first(2),
        flags: &FlagTable::none(),
    };
    let arena = Bump::new(alloc);
    assert!(rt; effects(&outcome(alloc, spec, &context, &arena)?) == wanted);
    let code = code_of_copies(alloc, spec)?.ok_or("code that isn't accepted")?;
    assert!(rt; effects(&execute(alloc, &code, &context, &arena)?) == wanted);
    Ok(())
}

/// The specification and the list are read, and the list has its outcomes.
fn evaluate<A: Allocator + Copy>(
    rt: &impl Abort,
    alloc: A,
    list: &[u8],
    wanted: Option<usize>,
) -> Result<(), Fail> {
    let spec = spec_of(alloc, &read_term(alloc, SPEC)?, Dialect::Call)?;
    let Term::List(list) = read_term(alloc, list)? else {
        return Err(Fail::new("no list"));
    };
    check_outcomes(rt, alloc, &spec, list.as_slice(), wanted)
}

/// Each evaluation gives back the memory that it takes.
#[test]
fn evaluations(rt: HostRuntime) -> Result<(), Fail> {
    for (list, wanted) in &LISTS {
        let heap = LocalHeap::new(rt.alloc(), 1 << 20)?;
        let before = heap.used();
        evaluate(&rt, &heap, list, *wanted)?;
        assert_eq!(rt; heap.used(), before);
    }
    Ok(())
}
