// A run that kept text alone.
use crate::recorder::Recorder;
use crate::run::Run;
use crate::sinks::Lines;
use std::alloc::Allocator;
use std::marker::Model;
use std::mem::replace;

/// What a run of a program wrote down: the messages of each session and the replies as text, each with
/// a line feed, and the picks that moved.
#[derive(Drop)]
pub struct Transcript<A: Allocator> {
    recorder: Recorder<A, Lines<A>>,
    journal: Vec<u32, A>,
}

impl<A: Allocator> Model for Transcript<A> {
    ghost use Rattle.tn_trace.specs.Transcripts.{TranscriptValue, slot_lines};

    ghost Value = { TranscriptValue };

    ghost view = { λ t. record {
      listings = slot_lines t.recorder.slots.items;
      replied = t.recorder.replies.text.items;
      journal = t.journal.items;
    } };
}

impl<A: Allocator + Copy> Transcript<A> {
    ghost use Rattle.std.specs.Prelude.{◌≡◌, slice_get};
    ghost use Rattle.std.specs.Option.{option_map};
    ghost use Rattle.tn_trace.specs.Transcripts.{without_lines};
    ghost use Rattle.tn_trace.specs.Bounds.{IsOfItsRun};

    /// The transcript of a run that kept text.
    pub fn of_run(run: Run<A, Recorder<A, Lines<A>>>) -> Transcript<A>
        ensures { IsOfItsRun run result }
    {
        Transcript {
            recorder: run.observer,
            journal: run.journal,
        }
    }

    /// The lines of the session at this place among the creations of the control list, from 0, in order;
    /// None where there is no such session.
    pub fn lines(&self, place: usize) -> Option<&[u8]>
        ensures { option_map (λ v. v.now) result ≡ slice_get self.now.listings place }
    {
        match self.recorder.slots.get(place) {
            Some(slot) => Some(&slot.kept.text),
            None => None,
        }
    }

    /// The same lines, which leave the transcript: none of them is copied, and the session has none afterwards.
    pub fn take_lines(&mut self, place: usize) -> Option<Vec<u8, A>>
        ensures lines { option_map (λ v. v.items) result ≡ slice_get self.old.listings place }
        ensures others { self.new ≡ without_lines self.old place }
    {
        let none = Vec::new(self.recorder.alloc);
        if place < self.recorder.slots.len() {
            Some(replace(&mut self.recorder.slots[place].kept.text, none))
        } else {
            None
        }
    }

    /// The replies to the commands that were taken, a line each, in order.
    pub fn replies(&self) -> &[u8]
        ensures { result.now ≡ self.now.replied }
    {
        &self.recorder.replies.text
    }

    /// The picks that moved, in order.
    pub fn journal(&self) -> &[u32]
        ensures { result.now ≡ self.now.journal }
    {
        &self.journal
    }
}
