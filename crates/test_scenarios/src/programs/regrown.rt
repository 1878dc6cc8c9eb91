//! A run in which one growth is refused, which shows under `rt try --test --fail-alloc N`: the call that met it says so,
//! the one after it goes on from there, and the status is 1.
use super::{BASE_TEXT, USUAL};
use crate::programs::memory::run_texts;
use std::test::Fail;

/// Each call is made twice, so that the second one tells what the first one left.
const SCRIPT: &[u8] =
    b"a,begin\na,begin\na,delete,20\na,delete,20\na,get,30\na,get,30\na,commit\na,commit\n";

/// What is written where nothing is refused, or a growth of the first begin, delete, get or commit, or of the second
/// delete or get.
static WRITTEN: [(u8, &str); 7] = [
    (
        0,
        "a,begin,Begun\na,begin,AlreadyOpen\na,delete,Done\na,delete,Missing\na,get,Row,30,Cid,3\na,get,Row,30,Cid,3\na,commit,Committed,1\na,commit,NotOpen\n",
    ),
    (
        1,
        "a,begin,NoMemory\na,begin,Begun\na,delete,Done\na,delete,Missing\na,get,Row,30,Cid,3\na,get,Row,30,Cid,3\na,commit,Committed,1\na,commit,NotOpen\n",
    ),
    (
        1,
        "a,begin,Begun\na,begin,AlreadyOpen\na,delete,NoMemory\na,delete,Done\na,get,Row,30,Cid,3\na,get,Row,30,Cid,3\na,commit,Committed,1\na,commit,NotOpen\n",
    ),
    (
        1,
        "a,begin,Begun\na,begin,AlreadyOpen\na,delete,Done\na,delete,NoMemory\na,get,Row,30,Cid,3\na,get,Row,30,Cid,3\na,commit,Committed,1\na,commit,NotOpen\n",
    ),
    (
        1,
        "a,begin,Begun\na,begin,AlreadyOpen\na,delete,Done\na,delete,Missing\na,get,NoMemory\na,get,Row,30,Cid,3\na,commit,Committed,1\na,commit,NotOpen\n",
    ),
    (
        1,
        "a,begin,Begun\na,begin,AlreadyOpen\na,delete,Done\na,delete,Missing\na,get,Row,30,Cid,3\na,get,NoMemory\na,commit,Committed,1\na,commit,NotOpen\n",
    ),
    (
        1,
        "a,begin,Begun\na,begin,AlreadyOpen\na,delete,Done\na,delete,Missing\na,get,Row,30,Cid,3\na,get,Row,30,Cid,3\na,commit,NoMemory\na,commit,Committed,1\n",
    ),
];

/// The image in each of these cases.
const IMAGE: &[u8] = b"\nid:int:key,name:text,qty:int\n10,Ann,1\n30,Cid,3\n";

#[test]
fn a_call_that_finds_no_memory_says_so_and_the_next_one_goes_on(
    rt: HostRuntime,
) -> Result<(), Fail> {
    let mut out = Vec::new(rt.alloc());
    let status = run_texts(rt.alloc(), Ok(BASE_TEXT), Ok(SCRIPT), USUAL, &mut out)?;
    let Some(lines) = out.as_slice().strip_suffix(IMAGE) else {
        return Err(Fail::new("another image"));
    };
    assert!(&rt;
        WRITTEN
            .iter()
            .any(|(want, text)| *want == status && lines == text.as_bytes())
    );
    Ok(())
}
