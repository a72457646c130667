//! What is done to all frames of an input.
ghost use Rattle.std.specs.Prelude.{◌≡◌, ◌≤◌, ◌∷◌, [], length, replicate, vec_capacity, IsTrue};
ghost use Rattle.texml_input.specs.Held.{Fence, ids_of, fences_of, AreHeld, IsAtFence, unfenced, end_first};
ghost use Rattle.texml_input.specs.Keeping.{Holds};
ghost use Rattle.texml_input.specs.Inside.{sources_of, written, ClosesFrame};

use crate::turning::{Frame, put_last, take_front};
use texml_base::Files;

// Takes away the first fence, if there is one, with the frames before it, of which nothing is left.
#[tactic(auto, using(crate::proofs::Emptied::dropped))]
pub fn drop_fence(frames: &mut Vec<Frame>)
    requires at { IsAtFence (sources_of frames.old.items) }
    ensures { sources_of frames.new.items ≡ unfenced (sources_of frames.old.items) }
{
    while let Some(frame) = take_front(frames) {
        if is_fence(frame) {
            return;
        }
    }
}

// Whether a frame is a fence.
fn is_fence(frame: Frame) -> bool
    ensures yes { IsTrue result → frame ≡ Frame.Fence }
    ensures no { frame ≡ Frame.Fence → IsTrue result }
{
    matches!(frame, Frame::Fence)
}

// Ends the first file, if there is one.
pub fn end_file_of(frames: &mut Vec<Frame>)
    ensures { sources_of frames.new.items ≡ end_first (sources_of frames.old.items) }
{
    let mut at = frames.len();
    while at > 0 {
        at -= 1;
        if let Frame::File(file) = &mut frames[at] {
            file.end();
            return;
        }
    }
}

// Closes all files, and leaves the fences alone.
pub fn empty<F: Files>(frames: &mut Vec<Frame>, files: &mut F)
    requires { AreHeld (F.shelf files.old).ids (ids_of (sources_of frames.old.items)) }
    ensures empty { sources_of frames.new.items ≡ replicate (fences_of (sources_of frames.old.items)) Fence }
    ensures holds { Holds (F.shelf files.old) (F.shelf files.new) (sources_of frames.old.items) [] }
    ensures total { (F.shelf files.new).total ≡ (F.shelf files.old).total }
    ensures faults { F.faults files.new ≡ F.faults files.old }
{
    let fences = close(frames, files);
    for _ in 0..fences {
        put_last(frames, Frame::Fence);
    }
}

// Closes all files, leaves nothing, and answers how many fences there were.
pub fn close<F: Files>(frames: &mut Vec<Frame>, files: &mut F) -> usize
    requires { AreHeld (F.shelf files.old).ids (ids_of (sources_of frames.old.items)) }
    ensures fences { result ≡ fences_of (sources_of frames.old.items) }
    ensures room { result ≤ vec_capacity frames.new }
    ensures empty { frames.new.items ≡ [] }
    ensures holds { Holds (F.shelf files.old) (F.shelf files.new) (sources_of frames.old.items) [] }
    ensures total { (F.shelf files.new).total ≡ (F.shelf files.old).total }
    ensures faults { F.faults files.new ≡ F.faults files.old }
{
    let mut fences = 0;
    while let Some(frame) = take_front(frames) {
        fences += close_frame(frame, files);
    }
    fences
}

// Closes the file that a frame is, and answers how many fences it is.
#[tactic(auto, using(crate::proofs::Emptied::fences_plain))]
fn close_frame<F: Files>(frame: Frame, files: &mut F) -> usize
    requires { AreHeld (F.shelf files.old).ids (ids_of (written frame)) }
    ensures fences { result ≡ fences_of (written frame) }
    ensures one { result ≤ 1 }
    ensures closes { ClosesFrame (F.shelf files.old) (F.shelf files.new) frame }
    ensures faults { F.faults files.new ≡ F.faults files.old }
{
    match frame {
        Frame::Token(_) => 0,
        Frame::Frozen(_) => 0,
        Frame::List(_) => 0,
        Frame::Macro(_) => 0,
        Frame::File(file) => {
            files.close_file(file.id());
            0
        }
        Frame::Fence => 1,
    }
}

// How many files there are.
pub fn count_files(frames: &[Frame]) -> usize
    ensures { result ≡ length (ids_of (sources_of frames.now)) }
{
    let mut count = 0;
    for frame in frames {
        count += files_in(frame);
    }
    count
}

// How many files a frame is.
#[tactic(auto, using(crate::proofs::Sources::ids_plain))]
fn files_in(frame: &Frame) -> usize
    ensures count { result ≡ length (ids_of (written frame.now)) }
    ensures one { result ≤ 1 }
{
    match frame {
        Frame::Token(_) => 0,
        Frame::Frozen(_) => 0,
        Frame::List(_) => 0,
        Frame::Macro(_) => 0,
        Frame::File(_) => 1,
        Frame::Fence => 0,
    }
}
