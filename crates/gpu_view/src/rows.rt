//! The rows of a report, read member by member. A member that is missing, repeated or unknown is refused where it
//! stands; only the name of a block may be missing.

use crate::names::Names;
use gpu_alloc::{MemoryPropertyFlags, MemoryType};
use gpu_report::{HeapReport, KindReport, ObjectKind, ObjectReport, Place, Report};
use serde::{Deserialize, Deserializer, Format, Name};
use std::alloc::Global;

/// A report in which each block is named by its key, with the memory types, and the names that blocks have besides.
#[derive(Drop)]
pub(crate) struct Dump {
    pub report: Report,
    pub types: Vec<MemoryType>,
    pub names: Names,
}

impl<'de> Deserialize<'de> for Dump {
    fn deserialize<F: Format>(
        alloc: Global,
        from: &mut Deserializer<'de, '_, F>,
    ) -> Result<Dump, F::Error> {
        let names = [
            Name::exact("heaps"),
            Name::exact("types"),
            Name::exact("kinds"),
            Name::exact("objects"),
        ];
        let mut heaps = None;
        let mut types = None;
        let mut kinds = None;
        let mut objects = None;
        let mut given = Names::new(alloc);
        from.begin_map()?;
        for _ in 0..u64::MAX {
            let Some(at) = from.next_key(&names)? else {
                break;
            };
            match at {
                0 if heaps.is_none() => heaps = Some(rows(alloc, from, &mut given)?),
                1 if types.is_none() => types = Some(rows(alloc, from, &mut given)?),
                2 if kinds.is_none() => kinds = Some(rows(alloc, from, &mut given)?),
                3 if objects.is_none() => objects = Some(rows(alloc, from, &mut given)?),
                _ => return Err(unexpected(from, &names, at)),
            }
        }
        let report = Report {
            heaps: present(from, "heaps", heaps)?,
            kinds: present(from, "kinds", kinds)?,
            objects: present(from, "objects", objects)?,
        };
        let types = present(from, "types", types)?;
        Ok(Dump {
            report,
            types,
            names: given,
        })
    }
}

/// A list that must be there.
fn present<T: Drop, F: Format>(
    from: &Deserializer<'_, '_, F>,
    name: &str,
    list: Option<Vec<T>>,
) -> Result<Vec<T>, F::Error> {
    match list {
        Some(list) => Ok(list),
        None => Err(from.missing(name)),
    }
}

/// The error of a member that is repeated or unknown.
fn unexpected<F: Format>(
    from: &Deserializer<'_, '_, F>,
    names: &[Name<'_>],
    at: usize,
) -> F::Error {
    match names.get(at) {
        Some(name) => from.duplicate(name.name),
        None => from.unknown_key(),
    }
}

/// A value that a row is read into. The names of blocks that stand in it are added to `given`.
trait Row: Sized + Drop {
    fn read<F: Format>(
        alloc: Global,
        from: &mut Deserializer<'_, '_, F>,
        given: &mut Names,
    ) -> Result<Self, F::Error>;
}

/// A list of rows.
fn rows<T: Row, F: Format>(
    alloc: Global,
    from: &mut Deserializer<'_, '_, F>,
    given: &mut Names,
) -> Result<Vec<T>, F::Error> {
    let mut rows = Vec::new(alloc);
    from.begin_seq()?;
    for _ in 0..u64::MAX {
        if !from.next_item()? {
            break;
        }
        let row = T::read(alloc, from, given)?;
        if rows.push(row).is_err() {
            return Err(from.no_memory());
        }
    }
    Ok(rows)
}

impl Row for HeapReport {
    fn read<F: Format>(
        _alloc: Global,
        from: &mut Deserializer<'_, '_, F>,
        _given: &mut Names,
    ) -> Result<HeapReport, F::Error> {
        let names = [
            Name::exact("size"),
            Name::exact("limit"),
            Name::exact("used"),
            Name::exact("budget"),
        ];
        let members = Members::read(&names, from)?;
        Ok(HeapReport {
            size: members.word(from, 0)?,
            limit: members.word(from, 1)?,
            used: members.wide(from, 2)?,
            budget: members.word(from, 3)?,
        })
    }
}

impl Row for MemoryType {
    fn read<F: Format>(
        _alloc: Global,
        from: &mut Deserializer<'_, '_, F>,
        _given: &mut Names,
    ) -> Result<MemoryType, F::Error> {
        let names = [Name::exact("heap"), Name::exact("properties")];
        let members = Members::read(&names, from)?;
        let heap = members.index(from, 0)?;
        match u8::try_from(members.wide(from, 1)?) {
            Ok(bits) => Ok(MemoryType {
                heap,
                props: MemoryPropertyFlags::from_bits_retain(bits),
            }),
            Err(_) => Err(from.invalid()),
        }
    }
}

impl Row for KindReport {
    fn read<F: Format>(
        _alloc: Global,
        from: &mut Deserializer<'_, '_, F>,
        _given: &mut Names,
    ) -> Result<KindReport, F::Error> {
        let names = [
            Name::exact("kind"),
            Name::exact("memory_type"),
            Name::exact("objects"),
            Name::exact("live_blocks"),
            Name::exact("live_bytes"),
            Name::exact("asked_bytes"),
            Name::exact("free_bytes"),
            Name::exact("largest_free"),
            Name::exact("scattered"),
        ];
        let members = Members::read(&names, from)?;
        Ok(KindReport {
            kind: members.kind(from)?,
            memory_type: members.index(from, 1)?,
            objects: members.word(from, 2)?,
            live_blocks: members.word(from, 3)?,
            live_bytes: members.wide(from, 4)?,
            asked_bytes: members.wide(from, 5)?,
            free_bytes: members.wide(from, 6)?,
            largest_free: members.word(from, 7)?,
            scattered: members.word(from, 8)?,
        })
    }
}

impl Row for ObjectReport {
    fn read<F: Format>(
        alloc: Global,
        from: &mut Deserializer<'_, '_, F>,
        given: &mut Names,
    ) -> Result<ObjectReport, F::Error> {
        let names = [
            Name::exact("kind"),
            Name::exact("memory_type"),
            Name::exact("object"),
            Name::exact("size"),
            Name::exact("places"),
        ];
        let mut members = Members::new(&names);
        let mut places = None;
        from.begin_map()?;
        for _ in 0..u64::MAX {
            let Some(at) = from.next_key(&names)? else {
                break;
            };
            match at {
                4 if places.is_none() => places = Some(rows(alloc, from, given)?),
                4 => return Err(unexpected(from, &names, at)),
                _ => members.put(from, at)?,
            }
        }
        Ok(ObjectReport {
            kind: members.kind(from)?,
            memory_type: members.index(from, 1)?,
            object: members.word(from, 2)?,
            size: members.word(from, 3)?,
            places: present(from, "places", places)?,
        })
    }
}

/// A live block under its key, with its caller's value, how many bytes were asked for, and its name if it has one; or
/// free bytes, which have none of these.
impl Row for Place {
    fn read<F: Format>(
        alloc: Global,
        from: &mut Deserializer<'_, '_, F>,
        given: &mut Names,
    ) -> Result<Place, F::Error> {
        let names = [
            Name::exact("offset"),
            Name::exact("size"),
            Name::exact("key"),
            Name::exact("user"),
            Name::exact("asked"),
            Name::exact("name"),
        ];
        let mut members = Members::new(&names);
        let mut name = None;
        from.begin_map()?;
        for _ in 0..u64::MAX {
            let Some(at) = from.next_key(&names)? else {
                break;
            };
            match at {
                5 if name.is_none() => name = Some(name_of_block(alloc, from)?),
                5 => return Err(unexpected(from, &names, at)),
                _ => members.put(from, at)?,
            }
        }
        let block = members.word_or_null(from, 2)?;
        // (no picture shows the value)
        let user = members.word_or_null(from, 3)?;
        let asked = members.word_or_null(from, 4)?;
        if user.is_some() != block.is_some() || asked.is_some() != block.is_some() {
            return Err(from.invalid());
        }
        keep_name(from, block, name.flatten(), given)?;
        Ok(Place {
            block,
            offset: members.word(from, 0)?,
            size: members.word(from, 1)?,
            asked: asked.unwrap_or(0),
        })
    }
}

/// A block's name; `None` where it is null.
fn name_of_block<F: Format>(
    alloc: Global,
    from: &mut Deserializer<'_, '_, F>,
) -> Result<Option<String>, F::Error> {
    if from.take_none()? {
        return Ok(None);
    }
    Ok(Some(from.string(alloc)?))
}

/// Adds the name of a place, if it has one, under the key of its block. Free bytes have no name.
fn keep_name<F: Format>(
    from: &Deserializer<'_, '_, F>,
    block: Option<u64>,
    name: Option<String>,
    given: &mut Names,
) -> Result<(), F::Error> {
    let Some(name) = name else {
        return Ok(());
    };
    let Some(key) = block else {
        return Err(from.invalid());
    };
    match given.add(key, name) {
        Ok(()) => Ok(()),
        Err(_) => Err(from.no_memory()),
    }
}

/// The most members of a row.
const MOST: usize = 9;

/// A member of a row.
#[derive(Clone, Copy)]
enum Member {
    /// It is not there.
    Missing,

    /// It is null.
    Null,

    /// A number, or for a kind its place among the kinds.
    Number(u128),
}

/// The members of a row, in the order of its names.
#[derive(Clone, Copy)]
struct Members<'n> {
    names: &'n [Name<'n>],
    members: [Member; MOST],
}

impl<'n> Members<'n> {
    fn new(names: &'n [Name<'n>]) -> Members<'n> {
        Members {
            names,
            members: [Member::Missing; MOST],
        }
    }

    /// Reads the members of a row that has only numbers and kinds.
    fn read<F: Format>(
        names: &'n [Name<'n>],
        from: &mut Deserializer<'_, '_, F>,
    ) -> Result<Members<'n>, F::Error> {
        let mut members = Members::new(names);
        from.begin_map()?;
        for _ in 0..u64::MAX {
            let Some(at) = from.next_key(names)? else {
                break;
            };
            members.put(from, at)?;
        }
        Ok(members)
    }

    /// Reads the member of that name, which must be the first of it.
    fn put<F: Format>(
        &mut self,
        from: &mut Deserializer<'_, '_, F>,
        at: usize,
    ) -> Result<(), F::Error> {
        match (self.names.get(at), self.members.get_mut(at)) {
            (Some(name), Some(place)) if matches!(place, Member::Missing) => {
                *place = read_member(from, name.name == "kind")?;
                Ok(())
            }
            _ => Err(unexpected(from, self.names, at)),
        }
    }

    /// A number that must be there, or null.
    fn wide_or_null<F: Format>(
        &self,
        from: &Deserializer<'_, '_, F>,
        at: usize,
    ) -> Result<Option<u128>, F::Error> {
        match (self.members.get(at), self.names.get(at)) {
            (Some(Member::Number(number)), _) => Ok(Some(*number)),
            (Some(Member::Null), _) => Ok(None),
            (_, Some(name)) => Err(from.missing(name.name)),
            (_, None) => Err(from.invalid()),
        }
    }

    /// The same, of at most 64 bits.
    fn word_or_null<F: Format>(
        &self,
        from: &Deserializer<'_, '_, F>,
        at: usize,
    ) -> Result<Option<u64>, F::Error> {
        match self.wide_or_null(from, at)? {
            Some(_) => Ok(Some(self.word(from, at)?)),
            None => Ok(None),
        }
    }

    /// A number that must be there.
    fn wide<F: Format>(&self, from: &Deserializer<'_, '_, F>, at: usize) -> Result<u128, F::Error> {
        match self.wide_or_null(from, at)? {
            Some(number) => Ok(number),
            None => Err(from.invalid()),
        }
    }

    /// The same, of at most 64 bits.
    fn word<F: Format>(&self, from: &Deserializer<'_, '_, F>, at: usize) -> Result<u64, F::Error> {
        match u64::try_from(self.wide(from, at)?) {
            Ok(number) => Ok(number),
            Err(_) => Err(from.invalid()),
        }
    }

    /// The same, of at most 32 bits.
    fn index<F: Format>(&self, from: &Deserializer<'_, '_, F>, at: usize) -> Result<u32, F::Error> {
        match u32::try_from(self.wide(from, at)?) {
            Ok(number) => Ok(number),
            Err(_) => Err(from.invalid()),
        }
    }

    /// The kind, which is the first of the names.
    fn kind<F: Format>(&self, from: &Deserializer<'_, '_, F>) -> Result<ObjectKind, F::Error> {
        match self.wide(from, 0)? {
            0 => Ok(ObjectKind::Dedicated),
            1 => Ok(ObjectKind::Imported),
            2 => Ok(ObjectKind::BuddyChunk),
            3 => Ok(ObjectKind::FreeListChunk),
            4 => Ok(ObjectKind::FitChunk),
            _ => Err(from.unknown_variant()),
        }
    }
}

/// Reads a member: a number, a kind or null.
fn read_member<F: Format>(
    from: &mut Deserializer<'_, '_, F>,
    is_kind: bool,
) -> Result<Member, F::Error> {
    if from.take_none()? {
        return Ok(Member::Null);
    }
    if !is_kind {
        return Ok(Member::Number(from.u128()?));
    }
    let kinds = [
        Name::exact("Dedicated"),
        Name::exact("Imported"),
        Name::exact("BuddyChunk"),
        Name::exact("FreeListChunk"),
        Name::exact("FitChunk"),
    ];
    let kind = from.variant(&kinds)?;
    Ok(Member::Number(kind as u128))
}
