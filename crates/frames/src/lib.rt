// The circle of frames: frame numbers are put in order only by their index from OMF. The pool's pages turn on it too, from the page where the
// needed ones start. The functions are called by our own crates alone, which test what a `requires` asks.
#![tactic(auto)]

ghost use Rattle.std.specs.Prelude.{◌≡◌, ◌+◌, ◌%◌};
ghost use Rattle.rules.specs.Registers.{live_between};
ghost use Rattle.frames.specs.Circle.{Turn, index_of, frame_at};

// The index of a frame from OMF round the circle: 0 for OMF itself.
pub fn index(frames: u32, omf: u32, frame: u32) -> u32
    requires { Turn frames omf frame }
    ensures { result ≡ index_of frames omf frame }
{
    if omf <= frame {
        return frame - omf;
    }
    frame + frames - omf
}

// The frame of an index from OMF.
pub fn frame_at(frames: u32, omf: u32, index: u32) -> u32
    requires { Turn frames omf index }
    ensures { result ≡ frame_at frames omf index }
{
    let frame = omf + index;
    if frame < frames {
        return frame;
    }
    frame - frames
}

// How many frames are live, from OMF to CMF round the circle.
pub fn live(frames: u32, omf: u32, cmf: u32) -> u32
    requires { Turn frames omf cmf }
    ensures { result ≡ live_between frames cmf omf }
{
    index(frames, omf, cmf) + 1
}

// The frame behind a frame, round the circle. (`Turn` asks the same of OMF and of a place; here both are the frame.)
pub fn next(frames: u32, frame: u32) -> u32
    requires { Turn frames frame frame }
    ensures { result ≡ (frame + 1) % frames }
{
    let after = frame + 1;
    if after < frames { after } else { 0 }
}
