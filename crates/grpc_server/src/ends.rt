//! The two ends of a call.

use crate::answer::Status;
use crate::call::Call;
use std::alloc::{AllocError, Global};
use std::cell::RefCell;
use std::io::{self, ErrorKind, Read, Write};
use std::rc::Rc;

// A call that both ends share.
type Shared<R, W> = Rc<RefCell<Call<R, W>>, Global>;

/// The end from which the client's data are read.
#[derive(Drop)]
pub struct CallReader<R: Read + Drop, W: Write + Drop> {
    call: Shared<R, W>,
}

/// The end to which data for the client are written.
#[derive(Drop)]
pub struct CallWriter<R: Read + Drop, W: Write + Drop> {
    call: Shared<R, W>,
}

/// Both ends of the call on this link.
pub fn call_on<R: Read + Drop, W: Write + Drop>(
    alloc: Global,
    reader: R,
    writer: W,
) -> Result<(CallReader<R, W>, CallWriter<R, W>), AllocError> {
    let call = Rc::new(alloc, RefCell::new(Call::new(alloc, reader, writer)?))?;
    let other = call.clone()?;
    Ok((CallReader { call }, CallWriter { call: other }))
}

impl<R: Read + Drop, W: Write + Drop> CallReader<R, W> {
    /// Ends the call, unless it has ended: what the client sent could not be served on.
    pub fn end(self) {
        if let Ok(mut call) = self.call.try_borrow_mut() {
            call.end(Status::Broken);
        }
    }
}

impl<R: Read + Drop, W: Write + Drop> Read for CallReader<R, W> {
    /// The client's data, after as many reads of the link as they take; 0 after the last of them. Fails once the call is over.
    fn read(&mut self, buf: &mut [u8]) -> io::Result<usize> {
        match self.call.try_borrow_mut() {
            Ok(mut call) => call.read(buf),
            Err(_) => Err(io::Error::from(ErrorKind::ResourceBusy)),
        }
    }
}

impl<R: Read + Drop, W: Write + Drop> Write for CallWriter<R, W> {
    /// Sends bytes as data of the call, as many as the client's windows allow. It waits until they allow some.
    fn write(&mut self, buf: &[u8]) -> io::Result<usize> {
        match self.call.try_borrow_mut() {
            Ok(mut call) => call.write(buf),
            Err(_) => Err(io::Error::from(ErrorKind::ResourceBusy)),
        }
    }

    fn flush(&mut self) -> io::Result<()> {
        Ok(())
    }
}
