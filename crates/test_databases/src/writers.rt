//! A writer that refuses: the output is told as refused.
use crate::recoveries::items_with;
use crate::worked::{FIVE, MANIFEST};
use pdtcli::{Refusal, ShowFault};
use std::io;
use std::io::Write;
use std::test::Fail;
use tables::recover_table;

/// Takes so many bytes, a few at a time, and refuses the next one.
#[derive(Drop)]
struct Brimming {
    room: usize,
}

impl Write for Brimming {
    fn write(&mut self, bytes: &[u8]) -> io::Result<usize> {
        if self.room == 0 {
            return Err(io::Error::from(io::ErrorKind::BrokenPipe));
        }
        let most = bytes.len().min(self.room).min(3);
        self.room -= most;
        Ok(most)
    }

    fn flush(&mut self) -> io::Result<()> {
        Ok(())
    }
}

#[test]
fn an_output_that_is_refused_is_told(rt: HostRuntime) -> Result<(), Fail> {
    let alloc = rt.alloc();
    let journal: [&[u8]; 1] = [&FIVE];
    for room in 0..56 {
        let mut out = Brimming { room };
        let answer = recover_table(
            alloc,
            MANIFEST,
            Some("items"),
            items_with(&journal),
            &mut out,
        );
        assert!(&rt;
            answer == Err(Refusal::Output(ShowFault::Write)),
            "room {room}"
        );
    }
    // The text has 56 bytes.
    let mut out = Brimming { room: 56 };
    let answer = recover_table(
        alloc,
        MANIFEST,
        Some("items"),
        items_with(&journal),
        &mut out,
    );
    assert!(&rt; answer == Ok(0));
    Ok(())
}
