//! Sources of files, and destinations of logs.
ghost use Rattle.std.specs.Prelude.{◌≡◌, ◌≤◌, ◌<◌, ◌⊎◌, ℕ, Err, List, IfErr, IfOk, IfSome, length};
ghost use Rattle.std.specs.declared.io.Error.{Error as IoError};
ghost use Rattle.std.specs.IoError.{error_kind};
ghost use Rattle.program_jobs.specs.declared.files.WholeFault.{WholeFault};

use std::alloc::Global;
use std::fs::File;
use std::io::{self, ErrorKind, Read, Write};
use std::rt::Stderr;

/// The greatest length in bytes of a file that the program reads: 16 MiB.
pub(crate) const MOST_FILE: u64 = 16_777_216;

/// Where files are read from, and where a log goes.
pub trait Source {
    /// The file at this path holds these bytes.
    ghost holds: { Self → List ℕ → List ℕ → Type 0 };

    /// The file at this path cannot be read, for this cause.
    ghost lacks: { Self → (List ℕ × IoError) → Type 0 };

    /// All bytes of the file at this path.
    fn read_file(&self, alloc: Global, path: &str) -> io::Result<Vec<u8>>
        ensures found { IfOk result (λ v. holds self.now path.now v.items) }
        ensures fault { IfErr result (λ e. (error_kind e ≡ ErrorKind.OutOfMemory)
            ⊎ lacks self.now (path.now, e)) };

    /// The writer of a log.
    type Log: Write + Drop;

    /// Opens a log that goes to the file at this path, whose old content is removed. If the path is `-`, the log goes
    /// to standard error.
    fn open_log(&self, path: &str) -> io::Result<Self::Log>;
}

/// The files of the system. Proofs assume nothing about their content.
impl Source for HostRuntime {
    ghost use Rattle.std.specs.Prelude.{⊤};

    ghost holds = { λ _ _ _. ⊤ };

    ghost lacks = { λ _ _. ⊤ };

    fn read_file(&self, alloc: Global, path: &str) -> io::Result<Vec<u8>> {
        match read_whole(alloc, File::open(self, path)?) {
            Ok(bytes) => Ok(bytes),
            Err(fault) => Err(fault.error()),
        }
    }

    type Log = LogWriter;

    fn open_log(&self, path: &str) -> io::Result<LogWriter> {
        match path {
            "-" => Ok(LogWriter::Errors(self.stderr())),
            _ => Ok(LogWriter::File(File::create(self, path)?)),
        }
    }
}

/// Files that are shared.
impl<F: Source> Source for &F {
    ghost holds = { λ files. F.holds files.now };

    ghost lacks = { λ files. F.lacks files.now };

    fn read_file(&self, alloc: Global, path: &str) -> io::Result<Vec<u8>> {
        F::read_file(*self, alloc, path)
    }

    type Log = F::Log;

    fn open_log(&self, path: &str) -> io::Result<F::Log> {
        F::open_log(*self, path)
    }
}

/// The destination of a log.
#[derive(Drop)]
pub enum LogWriter {
    /// To a file.
    File(File),
    /// To standard error.
    Errors(Stderr),
}

impl Write for LogWriter {
    fn write(&mut self, bytes: &[u8]) -> io::Result<usize> {
        match self {
            LogWriter::File(file) => file.write(bytes),
            LogWriter::Errors(errors) => errors.write(bytes),
        }
    }

    fn flush(&mut self) -> io::Result<()> {
        match self {
            LogWriter::File(file) => file.flush(),
            LogWriter::Errors(errors) => errors.flush(),
        }
    }
}

/// Why not all bytes of a file are read.
#[derive(Drop)]
pub(crate) enum WholeFault {
    /// It has more than `MOST_FILE` bytes.
    TooLong,
    /// A read failed, for this cause.
    Read(io::Error),
}

impl WholeFault {
    // The fault as an error of the input.
    fn error(self) -> io::Error
        ensures long { self ≡ WholeFault.TooLong → error_kind result ≡ ErrorKind.FileTooLarge }
        ensures read { (cause : IoError) → self ≡ WholeFault.Read cause → result ≡ cause }
    {
        match self {
            WholeFault::TooLong => {
                io::Error::new(ErrorKind::FileTooLarge, "it is longer than 16 MiB")
            }
            WholeFault::Read(cause) => cause,
        }
    }
}

impl From<io::Error> for WholeFault {
    ghost use Rattle.program_jobs.specs.declared.files.WholeFault.TheVariants as whole_faults;

    ghost from_gives = { λ cause fault. fault ≡ whole_faults.Read cause };

    fn from(cause: io::Error) -> WholeFault {
        WholeFault::Read(cause)
    }
}

/// All bytes of a file of at most `MOST_FILE` bytes.
pub(crate) fn read_whole<R: Read + Drop>(alloc: Global, file: R) -> Result<Vec<u8>, WholeFault>
    ensures whole { IfOk result (λ v. IfSome (R.remaining file) (λ bytes. v.items ≡ bytes)) }
    ensures short { IfOk result (λ v. length v.items ≤ 16777216) }
    ensures long { result ≡ Err WholeFault.TooLong
        → IfSome (R.remaining file) (λ bytes. 16777216 < length bytes) }
{
    let mut bytes = Vec::new(alloc);
    file.take(MOST_FILE + 1).read_to_end(&mut bytes)?;
    if bytes.len() as u64 > MOST_FILE {
        return Err(WholeFault::TooLong);
    }
    Ok(bytes)
}
