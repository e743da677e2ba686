// The edges of rooms and limits: each text of the vectors is scanned in rooms that are too small, and the limits of 01 are met and passed.
#![tactic(auto)]

mod limits;
mod small_rooms;

ghost use Rattle.std.specs.Prelude.{◌≤◌, length};

use crate::limits::say_limits;
use crate::small_rooms::say_rooms;
use std::io;

fn say_edges(rt: &HostRuntime, space: &mut [u8], bytes: &mut [u8]) -> io::Result<()>
    requires { 1_048_577 ≤ length space.old }
{
    say_rooms(rt, space)?;
    say_limits(rt, space, bytes)
}

fn main(rt: HostRuntime) -> io::Result<()> {
    let mut space = [0u8; 1048577];
    let mut bytes = [7u8; 1048576];
    say_edges(&rt, &mut space, &mut bytes)
}
