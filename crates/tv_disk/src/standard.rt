//! The numbers of the three standard streams, kept from the files that are opened.
use std::os::fd::AsRawFd;
use std::rt::Files;
use std::{fs, io};

/// The number of standard error, the last of the three.
const LAST: i32 = 2;

/// Opens the folder `/` under each of the three numbers that the program was started without. No
/// file that is opened while the answer is kept gets such a number, and no line that is meant for a
/// standard stream lands in a file. A folder can be neither read nor written, so the stream refuses
/// each call as a closed one does, also where it is named as a file.
pub fn occupy<R: Files>(rt: &R) -> io::Result<[Option<R::File>; 3]>
where
    R::File: AsRawFd,
{
    let mut held = [None, None, None];
    for place in held.iter_mut() {
        let file = fs::open(rt, "/")?;
        if file.as_raw_fd() > LAST {
            break;
        }
        *place = Some(file);
    }
    Ok(held)
}
