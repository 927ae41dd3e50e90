// What an event looks like in a picture.
ghost use Rattle.std.specs.Prelude.{◌≡◌};
ghost use Rattle.def_picture.specs.Picture.{shape_of_event};
ghost use Rattle.tn_flags.specs.Views.{event_of};
ghost use Rattle.tn_picture.specs.Views.{row_shape_seen};

use std::alloc::Allocator;
use tn_flags::Event;

/// The shape of a row.
#[derive(Clone, Copy)]
pub enum Shape {
    /// An arrow between two processes.
    Arrow { source: u32, target: u32 },
    /// The start of a call's frame at a depth.
    FrameStart { pid: u32, depth: usize },
    /// Its end.
    FrameEnd { pid: u32, depth: usize },
    /// The birth of a process.
    Birth { pid: u32 },
    /// Its death.
    Death { pid: u32 },
    /// Another event of a process.
    Dot { pid: u32 },
    /// A command of the control list.
    CommandLine,
}

impl Shape {
    ghost use Rattle.std.specs.Prelude.{◌≡◌};
    ghost use Rattle.def_picture.specs.JsonPicture.{shape_depth, shape_process, shape_target, shape_word};
    ghost use Rattle.tn_picture.specs.Views.{row_shape_seen};

    /// Its word.
    pub(crate) fn word(&self) -> &'static [u8]
        ensures { result.now ≡ shape_word (row_shape_seen self.now) }
    {
        match self {
            Shape::Arrow { .. } => b"arrow",
            Shape::FrameStart { .. } => b"frame_start",
            Shape::FrameEnd { .. } => b"frame_end",
            Shape::Birth { .. } => b"birth",
            Shape::Death { .. } => b"death",
            Shape::Dot { .. } => b"dot",
            Shape::CommandLine => b"command",
        }
    }

    /// The process that moves; a command has none.
    pub(crate) fn process(&self) -> Option<u32>
        ensures { result ≡ shape_process (row_shape_seen self.now) }
    {
        match self {
            Shape::Arrow { source, .. } => Some(*source),
            Shape::FrameStart { pid, .. } => Some(*pid),
            Shape::FrameEnd { pid, .. } => Some(*pid),
            Shape::Birth { pid } => Some(*pid),
            Shape::Death { pid } => Some(*pid),
            Shape::Dot { pid } => Some(*pid),
            Shape::CommandLine => None,
        }
    }

    /// The process to which an arrow points.
    pub(crate) fn target(&self) -> Option<u32>
        ensures { result ≡ shape_target (row_shape_seen self.now) }
    {
        match self {
            Shape::Arrow { target, .. } => Some(*target),
            _ => None,
        }
    }

    /// The depth of the frame that starts or ends.
    pub(crate) fn depth(&self) -> Option<usize>
        ensures { result ≡ shape_depth (row_shape_seen self.now) }
    {
        match self {
            Shape::FrameStart { depth, .. } => Some(*depth),
            Shape::FrameEnd { depth, .. } => Some(*depth),
            _ => None,
        }
    }
}

impl Shape {
    ghost use Rattle.std.specs.Prelude.{◌≡◌};
    ghost use Rattle.def_picture.specs.Picture.{is_birth, is_death, frame_depth};
    ghost use Rattle.tn_picture.specs.Views.{row_shape_seen};

    /// Whether it is the birth of this process.
    pub(crate) fn is_birth(&self, wanted: u32) -> bool
        ensures { result ≡ is_birth wanted (row_shape_seen self.now) }
    {
        match self {
            Shape::Birth { pid } => *pid == wanted,
            _ => false,
        }
    }

    /// The depth of the frame of this process that it starts or ends, or 0.
    pub(crate) fn frame_depth(&self, wanted: u32) -> usize
        ensures { result ≡ frame_depth wanted (row_shape_seen self.now) }
    {
        match self {
            Shape::FrameStart { pid, depth } if *pid == wanted => *depth,
            Shape::FrameEnd { pid, depth } if *pid == wanted => *depth,
            _ => 0,
        }
    }

    /// Whether it is the death of this process.
    pub(crate) fn is_death(&self, wanted: u32) -> bool
        ensures { result ≡ is_death wanted (row_shape_seen self.now) }
    {
        match self {
            Shape::Death { pid } => *pid == wanted,
            _ => false,
        }
    }
}

/// What an event looks like.
pub(crate) fn shape_of_event<A: Allocator>(event: &Event<A>) -> Shape
    ensures { row_shape_seen result ≡ shape_of_event (event_of event.now) }
{
    match event {
        Event::Sent { pid, to, .. } => Shape::Arrow {
            source: *pid,
            target: *to,
        },
        Event::Received { pid, .. } => Shape::Dot { pid: *pid },
        Event::Called { pid, call } => Shape::FrameStart {
            pid: *pid,
            depth: call.depth,
        },
        Event::Returned { pid, depth, .. } => Shape::FrameEnd {
            pid: *pid,
            depth: *depth,
        },
        Event::Raised { pid, depth, .. } => Shape::FrameEnd {
            pid: *pid,
            depth: *depth,
        },
        Event::Spawn { pid, child, .. } => Shape::Arrow {
            source: *pid,
            target: *child,
        },
        Event::Spawned { pid, .. } => Shape::Birth { pid: *pid },
        Event::Exited { pid, .. } => Shape::Death { pid: *pid },
        Event::Linked { pid, other } => Shape::Arrow {
            source: *pid,
            target: *other,
        },
        Event::Unlinked { pid, other } => Shape::Arrow {
            source: *pid,
            target: *other,
        },
        Event::GettingLinked { pid, .. } => Shape::Dot { pid: *pid },
        Event::GettingUnlinked { pid, .. } => Shape::Dot { pid: *pid },
    }
}
