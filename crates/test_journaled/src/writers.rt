//! A writer that takes some bytes of a run's output and then refuses: what was replied as committed is recovered.
use crate::assertions::assert_at;
use crate::stores::{NO_FAILURE, Slots, run_script};
use crate::texts::{IMAGES, LINES, image_after, script_with};
use pdtcli::{Refusal, ShowFault};
use std::alloc::Global;
use std::io;
use std::io::Write;
use std::process::Abort;
use std::test::Fail;

/// Takes so many bytes, a few at a time, and refuses the next one.
#[derive(Drop)]
struct Brimming {
    room: usize,
}

impl Write for Brimming {
    fn write(&mut self, bytes: &[u8]) -> io::Result<usize> {
        if self.room == 0 {
            return Err(io::Error::from(io::ErrorKind::BrokenPipe));
        }
        let most = bytes.len().min(self.room).min(3);
        self.room -= most;
        Ok(most)
    }

    fn flush(&mut self) -> io::Result<()> {
        Ok(())
    }
}

/// Where the line of each commit begins in the output. The call is made once there is room for all lines before it.
static BEGINS: [usize; 4] = [53, 102, 176, 250];

/// How many commits are made where there is room for so many bytes of the output.
fn made_with(room: usize) -> usize {
    BEGINS.iter().filter(|begin| **begin <= room).count()
}

/// That a run whose output is refused there is told so, and that the commits made by then, each of which was due to be replied next, are
/// recovered.
fn judge(rt: &impl Abort, alloc: Global, script: &[u8], room: usize) -> Result<(), Fail> {
    let slots = Slots::new(alloc)?;
    let mut out = Brimming { room };
    let answer = run_script(alloc, script, &slots, NO_FAILURE, &mut out);
    let length = LINES.len().wrapping_add(1).wrapping_add(IMAGES[4].len());
    let told = if room < length {
        Err(Refusal::Output(ShowFault::Write))
    } else {
        Ok(0)
    };
    assert_at(rt, answer == told, 0, room);
    let due = image_after(made_with(room));
    assert_at(rt, slots.recovered(alloc)?.is_table(due), 1, room);
    Ok(())
}

#[test]
fn what_was_replied_before_a_refusal_is_recovered_and_no_later_call_is_made(
    rt: HostRuntime,
) -> Result<(), Fail> {
    let script = script_with(rt.alloc(), 0)?;
    let length = LINES.len().wrapping_add(1).wrapping_add(IMAGES[4].len());
    for room in 0..=length {
        judge(&rt, rt.alloc(), script.as_str().as_bytes(), room)?;
    }
    Ok(())
}
