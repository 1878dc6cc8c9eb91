//! Logging to a file.
use crate::devices::{FIRST, SEED, log_up_to, spelt};
use logging::{Appender, FileJournal, LogFault};
use std::fs;
use std::fs::File;
use std::test::Fail;

#[test]
fn a_file_has_what_was_logged(rt: HostRuntime) -> Result<(), Fail> {
    let alloc = rt.alloc();
    let path = "journal-of-a-test";
    let file = File::create(&rt, path)?;
    let mut appender = Appender::new(alloc, FileJournal::new(file, &[]), SEED);
    assert!(&rt; log_up_to(&mut appender, 3) == (3, None));
    drop(appender);
    let bytes = fs::read(&rt, path)?;
    fs::remove_file(&rt, path)?;
    assert!(&rt; bytes.as_slice() == spelt(alloc, FIRST, 3)?.as_slice());
    Ok(())
}

/// A file that takes no bytes, and one whose data can't be made safe.
#[test]
fn a_file_that_fails_is_told(rt: HostRuntime) -> Result<(), Fail> {
    let alloc = rt.alloc();
    for path in ["/dev/full", "/dev/null"] {
        let file = File::options().write(true).open(&rt, path)?;
        let mut appender = Appender::new(alloc, FileJournal::new(file, &[]), SEED);
        assert!(&rt; log_up_to(&mut appender, 3) == (0, Some(LogFault::DeviceFailed)));
        assert!(&rt; appender.failures() == 1);
    }
    Ok(())
}
