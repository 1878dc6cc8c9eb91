//! The table, the script and its five images, as a person worked them out.
use std::alloc::Global;
use values::NoMemory;

/// The table.
pub(crate) const TABLE: &[u8] = b"id:int:key,name:text,qty:int\n10,Ann,1\n20,Bob,2\n30,Cid,3\n";

/// The image before any commit, and after each of the four.
pub(crate) const IMAGES: [&str; 5] = [
    "id:int:key,name:text,qty:int\n10,Ann,1\n20,Bob,2\n30,Cid,3\n",
    "id:int:key,name:text,qty:int\n10,Ann,1\n20,Bob,2\n25,\"Dee, Jr\",4\n30,Cid,3\n",
    "id:int:key,name:text,qty:int\n10,\"say \"\"hi\"\"\",1\n25,\"Dee, Jr\",4\n30,Cid,3\n",
    "id:int:key,name:text,qty:int\n5,,0\n10,\"say \"\"hi\"\"\",1\n25,\"Dee, Jr\",-7\n",
    "id:int:key,name:text,qty:int\n5,,0\n10,\"say \"\"hi\"\"\",1\n20,\"Bob, again\",8\n25,\"Dee, Jr\",-7\n",
];

/// The script: two clients, whose transactions overlap. Each piece but the last ends with a commit.
const PIECES: [&str; 5] = [
    "a,begin\na,insert,25,\"Dee, Jr\",4\nb,begin\nb,set,10,name,\"say \"\"hi\"\"\"\na,commit\n",
    "a,begin\nb,delete,20\nb,commit\n",
    "b,begin\na,insert,5,,0\na,set,25,qty,-7\na,delete,30\na,commit\n",
    "a,begin\nb,get,25\nb,insert,20,\"Bob, again\",8\nb,commit\n",
    "b,commit\nb,begin\na,len\na,abort\n",
];

/// What is replied where nothing fails.
pub(crate) const LINES: &str =
    "a,begin,Begun\na,insert,Done\nb,begin,Begun\nb,set,Done\na,commit,Committed,1\na,begin,Begun\nb,delete,Done\nb,commit,Committed,2\nb,begin,Begun\na,insert,Done\na,set,Done\na,delete,Done\na,commit,Committed,3\na,begin,Begun\nb,get,Row,25,\"Dee, Jr\",4\nb,insert,Done\nb,commit,Committed,4\nb,commit,NotOpen\nb,begin,Begun\na,len,Rows,3\na,abort,Aborted\n";

/// The places behind the header of the commits' journal, and behind each frame. A frame has 28 bytes and its payload, which has 8 and
/// its entries: an insert with a text of 7; a modify with a text of 8, and a delete; an insert with an empty text, a modify of a number,
/// and a delete; an insert with a text of 10.
pub(crate) const ENDS: [usize; 5] = [36, 102, 167, 253, 322];

/// The script, with a checkpoint behind so many of the commits: behind k where the bit of the value 2^k is set.
pub(crate) fn script_with(alloc: Global, places: u32) -> Result<String, NoMemory> {
    let mut text = String::new(alloc);
    for (place, piece) in (0_u32..).zip(&PIECES) {
        if places.wrapping_shr(place) % 2 == 1 {
            text.push_str("a,checkpoint\n")?;
        }
        text.push_str(piece)?;
    }
    Ok(text)
}

/// The image after so many of the commits.
pub(crate) fn image_after(commits: usize) -> &'static str {
    match IMAGES.get(commits) {
        Some(image) => *image,
        None => "",
    }
}

/// How many frames of the journal are whole in its first so many bytes, which have its header.
pub(crate) fn whole_in(count: usize) -> usize {
    let whole = ENDS.iter().filter(|end| **end <= count).count();
    whole.saturating_sub(1)
}

/// Whether that is what was written: the lines, a line feed and the image.
pub(crate) fn is_written(out: &[u8], lines: &str, image: &str) -> bool {
    let Some(front) = out.strip_suffix(image.as_bytes()) else {
        return false;
    };
    let Some(front) = front.strip_suffix(b"\n") else {
        return false;
    };
    front == lines.as_bytes()
}
