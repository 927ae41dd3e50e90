// The job that a request for a run by a schedule asks for.
ghost use Rattle.std.specs.Prelude.{◌≡◌, ◌||◌, not, IfErr, IfOk};
ghost use Rattle.tn_moves.specs.Schedules.{IsSpelledBy, schedule_seen};
ghost use Rattle.tn_program.specs.Views.{program_of};
ghost use Rattle.tn_run.specs.Jobs.{IsAnswerWithin, IsOfNoEnd, IsProgramAnswer};
ghost use Rattle.tn_request.specs.Tasks.{account_of_request, drawing_of_request, listing_of_replay, state_of_request};
ghost use Rattle.tn_request.specs.Tasks.{account_task, format_asked, listing_task, task_asked, task_job, task_seen};
ghost use Rattle.tn_explain.specs.Filters.{account_question_seen};

use crate::request::RunRequest;
use crate::schedule::schedule_of;
use std::alloc::Allocator;
use tn_command::{Command, NamedText, run_fault};
use tn_explain::{ExplainOutcome, ExplainRequest, Filter};
use tn_formats::Format;
use tn_listing::PicksFault;
use tn_message_choice::MessageFilter;
use tn_moves::Schedule;
use tn_notice::CommandFault;
use tn_picture::{DrawOutcome, DrawRequest};
use tn_program::Program;
use tn_replay::{Replay, ReplayOutcome};
use tn_run::{Denial, DirectJob, Job, Refusal, RefusalForm, RunFault};
use tn_state::{StateOutcome, StateRequest};

/// The job that a request for a run by a schedule asks for.
#[derive(Clone, Copy)]
pub enum RequestJob<'a> {
    Replay(Replay<'a>),
    Explain(ExplainRequest<'a>),
    State(StateRequest<'a>),
    Draw(DrawRequest<'a>),
}

/// What was written.
#[derive(Clone, Copy, Debug, PartialEq, Eq, Drop)]
pub enum RequestOutcome {
    Replay(ReplayOutcome),
    Explain(ExplainOutcome),
    State(StateOutcome),
    Draw(DrawOutcome),
}

/// The output of a run, with its notes where they are said, or where a strict command line asks for them.
fn listing_job(schedule: Schedule<'_>, quiet: bool, strict: bool) -> RequestJob<'_>
    ensures { task_seen result ≡ listing_task (schedule_seen schedule.entry) (not quiet || strict) quiet }
{
    RequestJob::Replay(Replay {
        schedule,
        has_notes: !quiet || strict,
        quiet,
    })
}

/// The explanation of a run, as far as is asked.
fn explain_job<'a>(
    schedule: Schedule<'a>,
    filter: Filter<'a>,
    message: Option<MessageFilter<'a>>,
) -> RequestJob<'a>
    ensures { task_seen result ≡
        account_task (schedule_seen schedule.entry) (account_question_seen filter.entry message.entry) }
{
    RequestJob::Explain(ExplainRequest {
        schedule,
        filter,
        message,
    })
}

/// The job of a request, with the text that was read of its picks or its moves.
pub fn job_of<'a>(request: &RunRequest<'a>, read: &'a [u8]) -> RequestJob<'a>
    ensures { task_seen result ≡ task_asked request.now read.now }
{
    let schedule = schedule_of(request, read);
    match *request {
        RunRequest::Replay {
            quiet,
            expectation,
            ..
        } => listing_job(schedule, quiet, expectation.strict),
        RunRequest::Explain {
            filter,
            message,
            ..
        } => explain_job(schedule, filter, message),
        RunRequest::State { question, .. } => {
            RequestJob::State(StateRequest { schedule, question })
        }
        RunRequest::Draw { format, .. } => RequestJob::Draw(DrawRequest { schedule, format }),
        RunRequest::Round {
            quiet,
            expectation,
            ..
        } => listing_job(schedule, quiet, expectation.strict),
    }
}

/// The format of the output of a request, where this one is asked for: a picture has one of its own.
pub fn format_of(request: &RunRequest<'_>, format: Option<Format>) -> Option<Format>
    ensures { result ≡ format_asked request.now format }
{
    match request {
        RunRequest::Draw { .. } => None,
        _ => format,
    }
}

/// What is written of a program that is run, where its listings have at most so many bytes.
fn replay_within<A: Allocator + Copy>(
    alloc: A,
    job: &Replay<'_>,
    picks: &[u32],
    program: &Program<A>,
    most: usize,
) -> Result<Option<(RequestOutcome, Vec<u8, A>)>, RunFault>
    requires { IsSpelledBy (schedule_seen job.now.schedule) picks.now }
    ensures given { IfOk result (IsAnswerWithin most (task_job (listing_of_replay job.now)) (program_of program.now)) }
    ensures fault { IfErr result (IsOfNoEnd (task_job (listing_of_replay job.now))) }
{
    match job.answer_within(alloc, picks, program, most) {
        Ok(Some((outcome, output))) => Ok(Some((RequestOutcome::Replay(outcome), output))),
        Ok(None) => Ok(None),
        Err(fault) => Err(fault),
    }
}

/// What is written of a program that is run.
fn replay_answer<A: Allocator + Copy>(
    alloc: A,
    job: &Replay<'_>,
    picks: &[u32],
    program: &Program<A>,
) -> Result<(RequestOutcome, Vec<u8, A>), RunFault>
    requires { IsSpelledBy (schedule_seen job.now.schedule) picks.now }
    ensures given { IfOk result (λ r. IsProgramAnswer (task_job (listing_of_replay job.now))
        (program_of program.now) r.0 r.1.items) }
    ensures fault { IfErr result (IsOfNoEnd (task_job (listing_of_replay job.now))) }
{
    let (outcome, output) = job.answer(alloc, picks, program)?;
    Ok((RequestOutcome::Replay(outcome), output))
}

/// What is written of a program whose run is explained.
fn explain_answer<A: Allocator + Copy>(
    alloc: A,
    job: &ExplainRequest<'_>,
    picks: &[u32],
    program: &Program<A>,
) -> Result<(RequestOutcome, Vec<u8, A>), RunFault>
    requires { IsSpelledBy (schedule_seen job.now.schedule) picks.now }
    ensures given { IfOk result (λ r. IsProgramAnswer (task_job (account_of_request job.now))
        (program_of program.now) r.0 r.1.items) }
    ensures fault { IfErr result (IsOfNoEnd (task_job (account_of_request job.now))) }
{
    let (outcome, output) = job.answer(alloc, picks, program)?;
    Ok((RequestOutcome::Explain(outcome), output))
}

/// What is written of a program whose state is asked for.
fn state_answer<A: Allocator + Copy>(
    alloc: A,
    job: &StateRequest<'_>,
    picks: &[u32],
    program: &Program<A>,
) -> Result<(RequestOutcome, Vec<u8, A>), RunFault>
    requires { IsSpelledBy (schedule_seen job.now.schedule) picks.now }
    ensures given { IfOk result (λ r. IsProgramAnswer (task_job (state_of_request job.now))
        (program_of program.now) r.0 r.1.items) }
    ensures fault { IfErr result (IsOfNoEnd (task_job (state_of_request job.now))) }
{
    let (outcome, output) = job.answer(alloc, picks, program)?;
    Ok((RequestOutcome::State(outcome), output))
}

/// What is written of a program whose run is drawn.
fn draw_answer<A: Allocator + Copy>(
    alloc: A,
    job: &DrawRequest<'_>,
    picks: &[u32],
    program: &Program<A>,
) -> Result<(RequestOutcome, Vec<u8, A>), RunFault>
    requires { IsSpelledBy (schedule_seen job.now.schedule) picks.now }
    ensures given { IfOk result (λ r. IsProgramAnswer (task_job (drawing_of_request job.now))
        (program_of program.now) r.0 r.1.items) }
    ensures fault { IfErr result (IsOfNoEnd (task_job (drawing_of_request job.now))) }
{
    let (outcome, output) = job.answer(alloc, picks, program)?;
    Ok((RequestOutcome::Draw(outcome), output))
}

impl<A: Allocator + Copy> Job<A> for RequestJob<'_> {
    ghost use Rattle.tn_moves.specs.Schedules.{IsSpelledBy};
    ghost use Rattle.tn_request.specs.Tasks.{task_job, task_schedule, task_seen};

    type Outcome = RequestOutcome;

    type Fault = RunFault;

    ghost view = { λ job. task_job (task_seen job) };

    ghost takes = { λ job picks. IsSpelledBy (task_schedule (task_seen job)) picks };

    fn picks(&self, alloc: A) -> Result<Vec<u32, A>, PicksFault> {
        match self {
            RequestJob::Replay(job) => job.schedule.picks_of_text(alloc),
            RequestJob::Explain(job) => job.schedule.picks_of_text(alloc),
            RequestJob::State(job) => job.schedule.picks_of_text(alloc),
            RequestJob::Draw(job) => job.schedule.picks_of_text(alloc),
        }
    }

    fn refusal_outcome(&self, alloc: A, refusal: Refusal) -> (RequestOutcome, RefusalForm) {
        match self {
            RequestJob::Replay(job) => {
                let (outcome, form) = job.refusal_outcome(alloc, refusal);
                (RequestOutcome::Replay(outcome), form)
            }
            RequestJob::Explain(job) => {
                let (outcome, form) = job.refusal_outcome(alloc, refusal);
                (RequestOutcome::Explain(outcome), form)
            }
            RequestJob::State(job) => {
                let (outcome, form) = job.refusal_outcome(alloc, refusal);
                (RequestOutcome::State(outcome), form)
            }
            RequestJob::Draw(job) => {
                let (outcome, form) = job.refusal_outcome(alloc, refusal);
                (RequestOutcome::Draw(outcome), form)
            }
        }
    }

    fn succeeds(&self, outcome: &RequestOutcome) -> bool {
        match outcome {
            RequestOutcome::Replay(outcome) => matches!(outcome, ReplayOutcome::Listed(_)),
            RequestOutcome::Explain(outcome) => {
                matches!(
                    outcome,
                    ExplainOutcome::Account | ExplainOutcome::NoDifference
                )
            }
            RequestOutcome::State(outcome) => matches!(outcome, StateOutcome::State),
            RequestOutcome::Draw(outcome) => matches!(outcome, DrawOutcome::Drawn),
        }
    }

    fn fault_of(&self, fault: RunFault) -> RunFault {
        fault
    }
}

impl<A: Allocator + Copy> DirectJob<A> for RequestJob<'_> {
    fn answer(
        &self,
        alloc: A,
        picks: &[u32],
        program: &Program<A>,
    ) -> Result<(RequestOutcome, Vec<u8, A>), RunFault> {
        match self {
            RequestJob::Replay(job) => replay_answer(alloc, job, picks, program),
            RequestJob::Explain(job) => explain_answer(alloc, job, picks, program),
            RequestJob::State(job) => state_answer(alloc, job, picks, program),
            RequestJob::Draw(job) => draw_answer(alloc, job, picks, program),
        }
    }

    fn answer_within(
        &self,
        alloc: A,
        picks: &[u32],
        program: &Program<A>,
        most: usize,
    ) -> Result<Option<(RequestOutcome, Vec<u8, A>)>, RunFault> {
        match self {
            RequestJob::Replay(job) => replay_within(alloc, job, picks, program, most),
            _ => Ok(Some(self.answer(alloc, picks, program)?)),
        }
    }
}

impl<A: Allocator + Copy> Command<A> for RequestJob<'_> {
    ghost use Rattle.tn_command.specs.Notices.{run_fault_said};
    ghost use Rattle.tn_request.specs.TaskFlaws.{IsTaskFlaw};
    ghost use Rattle.tn_request.specs.Tasks.{task_seen};

    ghost flaw = { λ job outcome bytes flawed. IsTaskFlaw (task_seen job) outcome bytes flawed };

    ghost said = { run_fault_said };

    fn command_fault(&self, fault: &RunFault) -> CommandFault {
        run_fault(*fault)
    }

    fn tell_outcome<R: Eprint + AllocGlobal>(
        &self,
        rt: &R,
        outcome: RequestOutcome,
        script: NamedText<'_>,
    ) {
        match (self, outcome) {
            (RequestJob::Replay(job), RequestOutcome::Replay(outcome)) => {
                <Replay<'_> as Command<A>>::tell_outcome(job, rt, outcome, script);
            }
            (RequestJob::Explain(job), RequestOutcome::Explain(outcome)) => {
                <ExplainRequest<'_> as Command<A>>::tell_outcome(job, rt, outcome, script);
            }
            (RequestJob::State(job), RequestOutcome::State(outcome)) => {
                <StateRequest<'_> as Command<A>>::tell_outcome(job, rt, outcome, script);
            }
            (RequestJob::Draw(job), RequestOutcome::Draw(outcome)) => {
                <DrawRequest<'_> as Command<A>>::tell_outcome(job, rt, outcome, script);
            }
            _ => {}
        }
    }

    fn is_flawed(
        &self,
        alloc: A,
        outcome: &RequestOutcome,
        script: NamedText<'_>,
    ) -> Result<bool, Denial> {
        match (self, outcome) {
            (RequestJob::Replay(job), RequestOutcome::Replay(outcome)) => {
                job.is_flawed(alloc, outcome, script)
            }
            (RequestJob::Explain(job), RequestOutcome::Explain(outcome)) => {
                job.is_flawed(alloc, outcome, script)
            }
            (RequestJob::State(job), RequestOutcome::State(outcome)) => {
                job.is_flawed(alloc, outcome, script)
            }
            (RequestJob::Draw(job), RequestOutcome::Draw(outcome)) => {
                job.is_flawed(alloc, outcome, script)
            }
            _ => Ok(false),
        }
    }
}
