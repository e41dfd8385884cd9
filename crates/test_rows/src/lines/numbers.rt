//! The numbers of a line. A server is written as its index, a point and its generation, and stands for these two
//! numbers; `closed`, `crashed` and `yes` stand for 1, `open`, `up` and `no` for 0, and `none` for the value that there
//! is none. Other words are for the reader alone.

use rc_types::{Entry, KeyRange, Part, Seq, ServerId, Shared};
use std::alloc::{AllocError, Global};

/// How many numbers a line has at most.
const MOST: usize = 64;

/// The number that stands for no value: that of no byte.
const NO_VALUE: u64 = 256;

/// The numbers of a line, which are taken one after the other; 0 where none is left.
#[derive(Drop)]
pub struct Numbers {
    all: Vec<u64>,
    taken: usize,
}

impl Numbers {
    /// Room for the numbers of a line.
    ///
    /// # Errors
    ///
    /// Memory was refused.
    pub fn new(alloc: Global) -> Result<Numbers, AllocError> {
        let all = Vec::with_capacity(alloc, MOST)?;
        Ok(Numbers { all, taken: 0 })
    }

    /// The numbers of this line, in place of those that were there.
    ///
    /// # Errors
    ///
    /// Memory was refused, of which a line of not too many numbers takes none.
    pub fn read(&mut self, line: &str) -> Result<(), AllocError> {
        self.all.clear();
        self.taken = 0;
        for word in line.split_whitespace() {
            match word.split_once('.') {
                Some((index, generation)) => {
                    self.add(index)?;
                    self.add(generation)?;
                }
                None => self.add(word)?,
            }
        }
        Ok(())
    }

    fn add(&mut self, word: &str) -> Result<(), AllocError> {
        let number = match word {
            "closed" | "crashed" | "yes" => Some(1),
            "open" | "up" | "no" => Some(0),
            "none" => Some(NO_VALUE),
            _ => word.parse().ok(),
        };
        if let Some(number) = number {
            self.all.push(number)?;
        }
        Ok(())
    }

    /// All numbers can be taken once more.
    pub fn rewind(&mut self) {
        self.taken = 0;
    }

    /// How many were not taken yet.
    pub fn left(&self) -> usize {
        self.all.len().saturating_sub(self.taken)
    }

    /// Whether the numbers that were taken were just those that are there.
    pub fn are_taken(&self) -> bool {
        self.all.len() == self.taken
    }

    /// The next number, 0 where none is left.
    pub fn next(&mut self) -> u64 {
        let number = self.all.get(self.taken).copied().unwrap_or(0);
        self.taken = self.taken.saturating_add(1);
        number
    }

    /// The next number, or 255 where it is greater.
    pub fn byte(&mut self) -> u8 {
        self.next().min(255) as u8
    }

    /// The next number, or 65,535 where it is greater.
    pub fn short(&mut self) -> u16 {
        self.next().min(65_535) as u16
    }

    /// The next number, or 4,294,967,295 where it is greater.
    pub fn long(&mut self) -> u32 {
        self.next().min(4_294_967_295) as u32
    }

    /// The next number as a length.
    pub fn size(&mut self) -> usize {
        self.next() as usize
    }

    /// The next number as a mark.
    pub fn mark(&mut self) -> bool {
        self.next() != 0
    }

    /// The next two numbers as a server.
    pub fn id(&mut self) -> ServerId {
        ServerId {
            index: self.byte(),
            generation: self.long(),
        }
    }

    /// The next number as a host, of which this is the first server.
    pub fn host(&mut self) -> ServerId {
        first_of(self.byte())
    }

    /// The next three numbers as a range of a table's keys.
    pub fn range(&mut self) -> KeyRange {
        KeyRange {
            table: self.long(),
            lo: self.next(),
            hi: self.next(),
        }
    }

    /// The next five numbers as a part.
    pub fn part(&mut self) -> Part {
        Part {
            range: self.range(),
            previous: self.long(),
            term: self.long(),
        }
    }

    /// So many of the next numbers as segments.
    ///
    /// # Errors
    ///
    /// Memory was refused.
    pub fn segments(&mut self, alloc: Global, count: usize) -> Result<Vec<u16>, AllocError> {
        let mut segs = Vec::new(alloc);
        for _ in 0..count.min(MOST) {
            segs.push(self.short())?;
        }
        Ok(segs)
    }

    /// All numbers that are left as hosts, of each its first server.
    ///
    /// # Errors
    ///
    /// Memory was refused.
    pub fn hosts(&mut self, alloc: Global) -> Result<Vec<ServerId>, AllocError> {
        let mut ids = Vec::new(alloc);
        for _ in 0..self.left() {
            ids.push(self.host())?;
        }
        Ok(ids)
    }

    /// All numbers that are left as servers, each with a mark, 1 for one that has crashed.
    ///
    /// # Errors
    ///
    /// Memory was refused.
    pub fn servers(&mut self, alloc: Global) -> Result<Vec<(ServerId, bool)>, AllocError> {
        let mut rows = Vec::new(alloc);
        for _ in 0..self.left() / 3 {
            rows.push((self.id(), !self.mark()))?;
        }
        Ok(rows)
    }

    /// All numbers that are left as names of replicas: of each its master and segment.
    ///
    /// # Errors
    ///
    /// Memory was refused.
    pub fn names(&mut self, alloc: Global) -> Result<Vec<(ServerId, u16)>, AllocError> {
        let mut names = Vec::new(alloc);
        for _ in 0..self.left() / 3 {
            names.push((self.id(), self.short()))?;
        }
        Ok(names)
    }

    /// A value of one byte, or none.
    ///
    /// # Errors
    ///
    /// Memory was refused.
    pub fn value(&mut self, alloc: Global) -> Result<Option<Shared<u8>>, AllocError> {
        match self.next() {
            NO_VALUE => Ok(None),
            number => {
                let bytes = vec![in alloc; number.min(255) as u8]?;
                Ok(Some(Shared::from_vec(alloc, bytes)?))
            }
        }
    }

    /// All numbers that are left as entries: of each its term, table, key and version, and the byte of its value.
    ///
    /// # Errors
    ///
    /// Memory was refused.
    pub fn entries(&mut self, alloc: Global) -> Result<Seq<Entry>, AllocError> {
        let mut entries = Vec::new(alloc);
        for _ in 0..self.left() / 5 {
            entries.push(self.entry(alloc)?)?;
        }
        Ok(Seq::from_vec(entries))
    }

    fn entry(&mut self, alloc: Global) -> Result<Entry, AllocError> {
        Ok(Entry {
            term: self.long(),
            table: self.long(),
            key: self.next(),
            version: self.next(),
            value: self.value(alloc)?,
        })
    }
}

/// The first server of host 0, which most rows are about.
pub const FIRST: ServerId = ServerId {
    index: 0,
    generation: 1,
};

/// The first server of this host.
pub fn first_of(index: u8) -> ServerId {
    ServerId {
        index,
        generation: 1,
    }
}
