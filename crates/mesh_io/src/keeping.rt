//! Readers of drawings that take what a file says beside numbers, and leave out what is to be left
//! out.
use crate::sieving::{Sieve, Skipped, sieve_features, sieve_rows};
use crate::wkt::features_of;
use mesh_files::{
    ColumnNames, Drawing, FileFault, Reason, Records, RecordsOf, Regions, feature_records,
    poly_regions, read_csv, read_geojson, read_poly, table_records,
};
use std::alloc::Global;
use std::io;
use std::io::Read;

/// What is wanted of a text.
#[derive(Clone, Copy)]
pub struct Wanted<'a> {
    pub names: ColumnNames<'a>,
    /// Whether further columns and properties are taken.
    pub are_recorded: bool,
    /// Whether regions are taken.
    pub are_regions: bool,
    pub sieve: Sieve,
}

/// A reader that keeps the bytes that were read, and whether there was memory for all.
#[derive(Drop)]
struct Kept<R> {
    reader: R,
    bytes: Vec<u8>,
    lacks_memory: bool,
}

impl<R> Kept<R> {
    fn new(reader: R, alloc: Global) -> Self {
        Kept {
            reader,
            bytes: Vec::new(alloc),
            lacks_memory: false,
        }
    }

    /// What is wrong: for whoever reads, want of memory is a fault of reading.
    fn fault_of(&self, fault: FileFault) -> FileFault {
        if self.lacks_memory {
            return FileFault::at(0, Reason::NoMemory);
        }
        fault
    }
}

impl<R: Read + Drop> Read for Kept<R> {
    fn read(&mut self, buf: &mut [u8]) -> io::Result<usize> {
        let count = self.reader.read(buf)?;
        match self
            .bytes
            .extend_from_slice(buf.get(..count).unwrap_or(&[]))
        {
            Ok(()) => Ok(count),
            Err(error) => {
                self.lacks_memory = true;
                Err(error.into())
            }
        }
    }
}

/// A drawing, what its file says of its points and polygons beside numbers, and what was left out.
#[derive(Drop)]
pub struct Recorded {
    pub drawing: Drawing,
    pub records: Records,
    pub skipped: Skipped,
    /// The points in regions, which are polygons.
    pub regions: Drawing,
    /// Whether a file of its kind may have degrees.
    pub may_be_degrees: bool,
}

impl Recorded {
    /// A drawing with records, of which nothing was left out.
    fn whole(drawing: Drawing, records: Records, alloc: Global) -> Self {
        Recorded {
            drawing,
            records,
            skipped: Skipped::new(alloc),
            regions: Drawing::new(alloc),
            may_be_degrees: false,
        }
    }

    /// A drawing of which only numbers are taken.
    pub fn plain(drawing: Drawing, alloc: Global) -> Self {
        Recorded::whole(drawing, Records::new(RecordsOf::Rows, alloc), alloc)
    }
}

/// All that a reader gives.
fn read_all<R: Read>(reader: &mut R, alloc: Global) -> Result<Vec<u8>, FileFault> {
    let mut whole = Vec::new(alloc);
    match reader.read_to_end(&mut whole) {
        Ok(_) => Ok(whole),
        Err(error) if error.kind() == io::ErrorKind::OutOfMemory => {
            Err(FileFault::at(0, Reason::NoMemory))
        }
        Err(_) => Err(FileFault::at(0, Reason::Unreadable)),
    }
}

/// Reads a table, with its further columns where they are wanted.
fn read_recorded_rows<R: Read + Drop>(
    wanted: Wanted<'_>,
    reader: R,
    alloc: Global,
) -> Result<Recorded, FileFault> {
    if !wanted.are_recorded {
        return Ok(Recorded::plain(read_csv(reader, wanted.names, alloc)?, alloc));
    }
    let mut kept = Kept::new(reader, alloc);
    let drawing = match read_csv(&mut kept, wanted.names, alloc) {
        Ok(drawing) => drawing,
        Err(fault) => return Err(kept.fault_of(fault)),
    };
    let records = table_records(kept.bytes.as_slice(), wanted.names, alloc)?;
    Ok(Recorded::whole(drawing, records, alloc))
}

/// Reads a table.
pub fn read_rows<R: Read + Drop>(
    wanted: Wanted<'_>,
    mut reader: R,
    alloc: Global,
) -> Result<Recorded, FileFault> {
    if wanted.sieve.is_open() {
        return read_recorded_rows(wanted, reader, alloc);
    }
    let whole = read_all(&mut reader, alloc)?;
    let sieved = sieve_rows(whole.as_slice(), wanted.names, &wanted.sieve, alloc)?;
    let recorded = read_recorded_rows(wanted, sieved.text.as_slice(), alloc)?;
    Ok(Recorded {
        skipped: sieved.skipped,
        ..recorded
    })
}

/// Reads a `.poly` file, with its regions where they are wanted.
pub fn read_parts<R: Read + Drop>(
    wanted: Wanted<'_>,
    reader: R,
    alloc: Global,
) -> Result<Recorded, FileFault> {
    if !wanted.are_regions {
        return Ok(Recorded::plain(read_poly(reader, alloc)?, alloc));
    }
    let mut kept = Kept::new(reader, alloc);
    let drawing = match read_poly(&mut kept, alloc) {
        Ok(drawing) => drawing,
        Err(fault) => return Err(kept.fault_of(fault)),
    };
    let Regions { points, records } = poly_regions(kept.bytes.as_slice(), alloc)?;
    Ok(Recorded {
        regions: points,
        ..Recorded::whole(drawing, records, alloc)
    })
}

/// Reads GeoJSON, with the properties of features where they are wanted.
fn read_recorded_features<R: Read + Drop>(
    wanted: Wanted<'_>,
    reader: R,
    alloc: Global,
) -> Result<Recorded, FileFault> {
    if !wanted.are_recorded {
        return Ok(Recorded::plain(read_geojson(reader, alloc)?, alloc));
    }
    let mut kept = Kept::new(reader, alloc);
    let drawing = match read_geojson(&mut kept, alloc) {
        Ok(drawing) => drawing,
        Err(fault) => return Err(kept.fault_of(fault)),
    };
    let records = feature_records(kept.bytes.as_slice(), alloc)?;
    Ok(Recorded::whole(drawing, records, alloc))
}

/// Reads GeoJSON.
pub fn read_features<R: Read + Drop>(
    wanted: Wanted<'_>,
    mut reader: R,
    alloc: Global,
) -> Result<Recorded, FileFault> {
    if !wanted.sieve.skips_bad {
        return read_recorded_features(wanted, reader, alloc);
    }
    let whole = read_all(&mut reader, alloc)?;
    let sieved = sieve_features(whole.as_slice(), alloc)?;
    let recorded = read_recorded_features(wanted, sieved.text.as_slice(), alloc)?;
    Ok(Recorded {
        skipped: sieved.skipped,
        ..recorded
    })
}

/// Reads a table with a column of geometries, whose fields have this between them.
pub fn read_geometries<R: Read>(
    wanted: Wanted<'_>,
    separator: u8,
    reader: &mut R,
    alloc: Global,
) -> Result<Recorded, FileFault> {
    let whole = read_all(reader, alloc)?;
    let skips_bad = wanted.sieve.skips_bad;
    let mut rewritten = features_of(whole.as_slice(), separator, skips_bad, alloc)?;
    let recorded = read_features(wanted, rewritten.text.as_slice(), alloc)?;
    for fault in &recorded.skipped.faults {
        rewritten.skipped.faults.push(*fault)?;
    }
    Ok(Recorded {
        skipped: rewritten.skipped,
        ..recorded
    })
}
