//! A writer that takes some bytes and then refuses.
use super::{BASE_TEXT, USUAL};
use crate::programs::memory::run_texts;
use pdtcli::{Refusal, ShowFault};
use std::io;
use std::io::Write;
use std::test::Fail;

/// Takes so many bytes, a few at a time, and refuses the next one.
#[derive(Drop)]
struct Brimming {
    room: usize,
}

impl Write for Brimming {
    fn write(&mut self, bytes: &[u8]) -> io::Result<usize> {
        if self.room == 0 {
            return Err(io::Error::from(io::ErrorKind::BrokenPipe));
        }
        let most = bytes.len().min(self.room).min(3);
        self.room -= most;
        Ok(most)
    }

    fn flush(&mut self) -> io::Result<()> {
        Ok(())
    }
}

#[test]
fn rows_are_refused_in_mid_stream(rt: HostRuntime) -> Result<(), Fail> {
    // Each of the 600 rows is shown as three digits and a line feed, after an empty line and the header: 12 bytes.
    let mut table = String::from_str(rt.alloc(), "id:int:key\n")?;
    for number in 100..700 {
        write!(table, "{number}\n")?;
    }
    for (room, want) in [
        (0, Err(Refusal::Output(ShowFault::Write))),
        (1, Err(Refusal::Output(ShowFault::Write))),
        (12, Err(Refusal::Output(ShowFault::Write))),
        (1_412, Err(Refusal::Output(ShowFault::Write))),
        (2_411, Err(Refusal::Output(ShowFault::Write))),
        (2_412, Ok(0)),
    ] {
        let mut out = Brimming { room };
        let found = run_texts(
            rt.alloc(),
            Ok(table.as_str().as_bytes()),
            Ok(b""),
            USUAL,
            &mut out,
        );
        assert!(&rt; found == want, "at room for {room}");
    }
    Ok(())
}

#[test]
fn a_line_is_refused(rt: HostRuntime) {
    let mut out = Brimming { room: 5 };
    let found = run_texts(rt.alloc(), Ok(BASE_TEXT), Ok(b"a,begin\n"), USUAL, &mut out);
    assert!(&rt; found == Err(Refusal::Output(ShowFault::Write)));
}
