// The part of a frame before its holes, written.
ghost use Rattle.std.specs.Prelude.{◌≡◌, true, ◌&&◌, ◌++◌, ◌+◌, ◌≤◌, length};
ghost use Rattle.octets.specs.Runs.{put_in};
ghost use Rattle.ax25.specs.Address.{is_writable};
ghost use Rattle.ax25.specs.Head.{head_length, head_bytes};
ghost use Rattle.ax25.specs.Information.{file_protocol};
ghost use Rattle.request.specs.Request.{before_holes, request_before};

use super::{Asks, BLOCK_SIZE};
use ax25::{FILE_PROTOCOL, HEAD_LENGTH, Head};

// Whether both addresses of a head can be written.
pub(crate) fn writable(head: Head) -> bool
    ensures { result ≡ (is_writable head.destination && is_writable head.source) }
{
    ax25::writable(head.destination) && ax25::writable(head.source)
}

// The seven bytes before the holes: flags, number and block size.
fn seven(asks: Asks, number: u32) -> [u8; 7]
    ensures { result ≡ request_before asks number }
{
    let n = octets::bytes::<4>(u64::from(number));
    let size = octets::bytes::<2>(BLOCK_SIZE);
    [u8::from(asks), n[0], n[1], n[2], n[3], size[0], size[1]]
}

// Writes the head of a frame and the seven bytes behind it into the first bytes of the target.
pub(crate) fn start_frame(target: &mut [u8], head: Head, asks: Asks, number: u32)
    requires { ((is_writable head.destination && is_writable head.source) ≡ true) × (head_length + before_holes ≤ length target.old) }
    ensures { target.new ≡ put_in target.old 0 (head_bytes head.destination head.source file_protocol ++ request_before asks number) }
{
    ax25::write_head(target, head, FILE_PROTOCOL).unwrap();
    octets::put(target, HEAD_LENGTH, &seven(asks, number));
}
