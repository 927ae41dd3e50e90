// Calls that no command of the program makes, each with ample memory.
use std::alloc::Global;
use std::process::Abort;
use std::sync::Arc;
use std::test::Fail;
use tn_flags::Event;
use tn_program::{Program, program};
use tn_script::forms;
use tn_session::Session;
use tn_term::Alive;

/// Each kind of step and of command. The last command sets the flag of the event below.
const SCRIPT: &str =
    "{function,m,go,exported,['To'],[{send,'To',{hi,1}},{'receive','X'},{call,'Y',m,['X']},{'catch','_',{m,m},[a]},
  {spawn,'P',{m,m},['Y']},{link,'P'},{unlink,'P'},{return,'P'},{error,a},{throw,\"b\"},{exit,c}]}.
{function,m,m,exported,['X'],[]}.
{process,m,go,[<0.101.0>]}.
{control,[{session_create,s1,t1,[]},{session_destroy,s1},{function,s1,{m,m,1},true,[local]},{send,s1,false,[]},
  {recv,s1,[],[]},{process,s1,all,true,[procs]}]}.
";

/// The program of the script.
fn program_of_script(alloc: Global) -> Result<Program<Global>, Fail> {
    Ok(program(alloc, forms(alloc, SCRIPT.as_bytes())?)?)
}

/// The program of the same text equals it.
fn check_same(rt: &impl Abort, alloc: Global, program: &Program<Global>) -> Result<(), Fail> {
    assert!(rt; program.same(&program_of_script(alloc)?));
    Ok(())
}

/// After the last command of the program a session has a message of a link, as a term.
fn check_event(rt: &impl Abort, alloc: Global, program: &Program<Global>) -> Result<(), Fail> {
    let command = program.commands().last().ok_or("no command")?;
    let mut session = Session::created(alloc, Arc::new(alloc, Vec::new(alloc))?, Alive::first(2));
    let _ = session.command(command)?;
    let (pid, other) = (100, 101);
    assert!(rt; session.event(&Event::Linked { pid, other })?.is_some());
    Ok(())
}

#[test]
fn calls_of_no_command(rt: HostRuntime) -> Result<(), Fail> {
    let program = program_of_script(rt.alloc())?;
    check_same(&rt, rt.alloc(), &program)?;
    check_event(&rt, rt.alloc(), &program)
}
