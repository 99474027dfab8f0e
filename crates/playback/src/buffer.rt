// The frames of a tick in a buffer of 576 bytes, nine to a frame.
ghost use Rattle.std.specs.Prelude.{◌≡◌, ◌≤◌, length, replicate};
ghost use Rattle.arrays.specs.Arrays.{pad_to};
ghost use Rattle.playback.specs.Frames.{frame_of, is_written, framed, frame_count};

use crate::{Heard, Sent};
use octets::put_bytes;
use sequence::Step;

// What was sent is written at this tick: unanswered, at an even tick after it first left.
fn is_written(sent: &Sent, ticks: u32) -> bool
    ensures { result ≡ is_written ticks sent.now }
{
    (sent.answer == Heard::Nothing as u8) & (sent.left % 2 == ticks % 2)
}

// A step's slot, and the eight bytes of its command.
fn frame_of(step: &Step, tan: u8) -> [u8; 9]
    ensures { result ≡ frame_of step.now tan }
{
    let [a, b, c, d] = step.value.to_le_bytes();
    [step.slot, 0x33, step.function, step.state, tan, a, b, c, d]
}

// The frames of what is written at this tick, one after the other, into a buffer of zeros; how many they are.
pub fn fill(ticks: u32, left: &[Sent], steps: &[Step], out: &mut [u8]) -> u32
    requires zeros { out.old ≡ replicate 576 0 }
    requires cells { length steps.now ≡ 64 }
    requires few { length left.now ≤ 64 }
    ensures value { result ≡ frame_count (is_written ticks) left.now }
    ensures out_after { out.new ≡ pad_to 0 576 (framed (is_written ticks) left.now steps.now) }
{
    let mut count: usize = 0;
    for (step, sent) in steps.iter().zip(left) {
        if is_written(sent, ticks) {
            put_bytes(out, count * 9, &frame_of(step, sent.tan));
            count += 1;
        }
    }
    count as u32
}
