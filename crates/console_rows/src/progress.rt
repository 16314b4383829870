use crate::error::RowError;
use crate::failing::{crash_of, failing_disk, left_by};
use crate::run::{put_run, put_run_in_pieces};
use crate::script::{PLAIN, Script, Settings, Shown};
use crate::text::{cut, number_of, push_bytes, put, put_numbers};
use disk_model::{Disk, MemoryDisk, PlainDisk};
use std::alloc::{AllocError, Global};

/// The room of a disk that a title makes, in nodes.
const ROOM: u32 = 16;

/// How many files a disk has.
const FILES: u64 = 9;

/// The greatest place of a file that a row may name, and the most bytes there.
const MOST: u64 = 1 << 30;

/// What the rows so far have left: the disk and what is set, the run whose input isn't complete,
/// and what is to be written.
#[derive(Drop)]
pub(crate) struct Progress {
    alloc: Global,
    disk: PlainDisk,
    /// The disk that is in its place, if its calls fail or a loss of power left it.
    failing: Option<Box<MemoryDisk>>,
    room: u32,
    in_pieces: bool,
    settings: Settings,
    script: Option<Script>,
    written: Vec<u8>,
}

impl Progress {
    /// What there is before the first row.
    pub(crate) fn new(alloc: Global) -> Result<Progress, AllocError> {
        Ok(Progress {
            alloc,
            disk: PlainDisk::new(alloc, ROOM)?,
            failing: None,
            room: ROOM,
            in_pieces: false,
            settings: PLAIN,
            script: None,
            written: Vec::new(alloc),
        })
    }

    /// What is to be written so far.
    pub(crate) fn written(&self) -> &[u8] {
        &self.written
    }

    /// Carries out a row. A run is carried out when the row after its input comes.
    pub(crate) fn take(&mut self, row: &[u8]) -> Result<(), RowError> {
        match row.first() {
            None => Ok(()),
            Some(b'#') => self.begin_section(row),
            Some(b'@') => self.take_setting(row),
            Some(b'$') => self.begin_run(row),
            Some(_) => match &mut self.script {
                Some(script) => script.add(row),
                None => Err(RowError::Malformed),
            },
        }
    }

    /// Carries out the run whose input is complete, if there is one.
    pub(crate) fn end_run(&mut self) -> Result<(), RowError> {
        let Some(script) = self.script.take() else {
            return Ok(());
        };
        if self.in_pieces {
            return put_run_in_pieces(self.alloc, &mut self.written, &script, self.room);
        }
        match &mut self.failing {
            Some(disk) => put_run(self.alloc, &mut self.written, &script, &mut **disk),
            None => put_run(self.alloc, &mut self.written, &script, &mut self.disk),
        }
    }

    fn begin_section(&mut self, title: &[u8]) -> Result<(), RowError> {
        self.end_run()?;
        self.make_disk(ROOM)?;
        self.in_pieces = false;
        self.settings = PLAIN;
        Ok(put(&mut self.written, &[title, b"\n"])?)
    }

    fn begin_run(&mut self, row: &[u8]) -> Result<(), RowError> {
        self.end_run()?;
        self.script = Some(Script::new(self.alloc, row, self.settings)?);
        self.settings = PLAIN;
        Ok(())
    }

    fn take_setting(&mut self, row: &[u8]) -> Result<(), RowError> {
        self.end_run()?;
        if row == b"@pieces".as_slice() {
            self.in_pieces = true;
            return Ok(());
        }
        let (word, rest) = cut(row)?;
        match word {
            b"@disk" => self.take_disk(rest)?,
            b"@fail-call" => self.fail_calls(&[number_of(rest)?], None)?,
            b"@stop" => self.fail_calls(&[], Some(number_of(rest)?))?,
            b"@left" => self.lose_power(rest)?,
            b"@poke" => self.poke(rest)?,
            b"@show" => self.show(rest)?,
            b"@fail-read" => self.settings.failing_read = number_of(rest)?,
            b"@fail-put" => self.settings.failing_put = number_of(rest)?,
            b"@first" => self.settings.shown = Shown::First(number_of(rest)?),
            b"@last" => self.settings.shown = Shown::Last(number_of(rest)?),
            _ => return Err(RowError::Malformed),
        }
        Ok(())
    }

    fn take_disk(&mut self, room: &[u8]) -> Result<(), RowError> {
        match u32::try_from(number_of(room)?) {
            Ok(room) => Ok(self.make_disk(room)?),
            Err(_) => Err(RowError::Malformed),
        }
    }

    fn make_disk(&mut self, room: u32) -> Result<(), AllocError> {
        self.disk = PlainDisk::new(self.alloc, room)?;
        self.failing = None;
        self.room = room;
        Ok(())
    }

    fn fail_calls(&mut self, fails: &[u64], stop: Option<u64>) -> Result<(), AllocError> {
        self.failing = Some(failing_disk(self.alloc, self.room, fails, stop)?);
        Ok(())
    }

    fn lose_power(&mut self, kind: &[u8]) -> Result<(), RowError> {
        let left = match &self.failing {
            Some(disk) => left_by(self.alloc, disk, crash_of(kind)?)?,
            None => return Err(RowError::Malformed),
        };
        self.failing = Some(left);
        Ok(())
    }

    /// Puts bytes into a file, where its number and the place stand before them.
    fn poke(&mut self, row: &[u8]) -> Result<(), RowError> {
        let (file, rest) = cut(row)?;
        let (place, rest) = cut(rest)?;
        let (file, place) = (number_of(file)?, number_of(place)?);
        let mut bytes = Vec::new(self.alloc);
        push_bytes(&mut bytes, rest)?;
        if self.failing.is_some() || file >= FILES || place > MOST || bytes.len() as u64 > MOST {
            return Err(RowError::Malformed);
        }
        let file = file as u8;
        match (self.disk.write(file, place, &bytes), self.disk.sync(file)) {
            (Ok(()), Ok(())) => Ok(()),
            _ => Err(RowError::Malformed),
        }
    }

    /// Writes bytes of a file as numbers.
    fn show(&mut self, row: &[u8]) -> Result<(), RowError> {
        let (file, rest) = cut(row)?;
        let (place, count) = cut(rest)?;
        let (file, place, count) = (number_of(file)?, number_of(place)?, number_of(count)?);
        if self.failing.is_some() || file >= FILES || place > MOST || count > MOST {
            return Err(RowError::Malformed);
        }
        let mut bytes = vec![in self.alloc; 0; count as usize]?;
        if self.disk.read(file as u8, place, &mut bytes).is_err() {
            return Err(RowError::Malformed);
        }
        Ok(put_numbers(&mut self.written, &bytes)?)
    }
}
