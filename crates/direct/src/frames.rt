ghost use Rattle.direct.specs.Frames.{Caught};
ghost use Rattle.direct.specs.Views.{standing};

use super::frame::Frame;
use few::Few;
use language::Handler;

/// The frames that stand, at most 32, the oldest first.
pub type Frames = Few<Frame, 32>;

/// Gives frames up, the newest first, down to one whose block has a handler, that one too.
pub fn catch(frames: &mut Frames) -> Option<(Frame, Handler)>
    ensures { Caught (standing frames.old) result (standing frames.new) }
{
    while let Some(frame) = frames.pop() {
        if let Some(handler) = frame.handler {
            return Some((frame, handler));
        }
    }
    None
}
