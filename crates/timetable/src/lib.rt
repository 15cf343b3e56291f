// The timetable: writes its bytes into a room that is lent, and reads a time from them.
#![tactic(auto)]

ghost use Rattle.std.specs.Prelude.{◌≡◌, ◌+◌, ◌-◌, ◌*◌, ◌≤◌, ◌&&◌, ◌++◌, map, length};
ghost use Rattle.std.proofs.lemmas.List.Edits.{sets};
ghost use Rattle.basics.specs.inner.Bitmaps.{marked_from};
ghost use Rattle.faults.specs.Limits.{last_atom, last_term};
ghost use Rattle.faults.specs.inner.Places.{atom_places, term_places};
ghost use Rattle.faults.specs.Values.{as_answer};
ghost use Rattle.timetable.specs.Word.{four_bytes, word_at};
ghost use Rattle.timetable.specs.Table.{records_of, record_bytes, atom_bytes, header_length, header_bytes, table_of, ascends, times_fit, names_of, is_table};
ghost use Rattle.timetable.specs.Times.{time_among, time_of};
ghost use Rattle.timetable.specs.inner.Given.{time_at, record_read, atom_read, given, WriterRooms, Timely, WrittenTable};

use faults::{Kind, LAST_ATOM, LAST_TERM, Refusal, TermNo};

// The largest time of a timetable.
const LATEST: u32 = 1023000000;

// The bytes of the header.
pub const HEADER: usize = 16;

// Writes the four bytes of a number at a place.
fn put_word(room: &mut [u8], at: usize, w: u32)
    requires { at + 4 ≤ length room.old }
    ensures { room.new ≡ sets room.old at (four_bytes w) }
{
    room[at..at + 4].copy_from_slice(&w.to_le_bytes());
}

// Writes a record at a place.
fn put_record(room: &mut [u8], at: usize, name: TermNo, time: u32)
    requires { at + 8 ≤ length room.old }
    ensures { room.new ≡ sets room.old at (four_bytes name.0 ++ four_bytes time) }
{
    put_word(room, at, name.0);
    put_word(room, at + 4, time);
}

// How many numbers of a bitmap, from one on, are marked.
pub fn count_marked(map: &[u8], from: usize) -> usize
    ensures value { result ≡ length (marked_from from map.now) }
    ensures upper_bound { result ≤ length map.now - from }
{
    map.iter().skip(from).filter(|b| **b == 1).count()
}

// Writes the header of a table of n names and m atoms.
fn write_header(room: &mut [u8], n: u32, m: u32)
    requires { (header_length ≤ length room.old) × (n ≤ term_places) }
    ensures { room.new ≡ sets room.old 0 (header_bytes n m) }
{
    let first = HEADER as u32;
    put_word(room, 0, n);
    put_word(room, 4, m);
    put_word(room, 8, first);
    put_word(room, 12, first + 8 * n);
}

// Writes the records of the marked names into the part of the room that begins at their offset, and answers how many bytes they take.
fn write_names(part: &mut [u8], names: &[u8], times: &[u64]) -> usize
    requires timely { Timely names.now times.now }
    requires names_len_bound { (length names.now ≤ term_places) × (length names.now ≤ length times.now) }
    requires names_in_bounds { 8 * length (marked_from 0 names.now) ≤ length part.old }
    ensures part_after { part.new ≡ sets part.old 0 (record_bytes (records_of (marked_from 0 names.now) (time_at times.now))) }
    ensures value { (result ≡ 8 * length (marked_from 0 names.now)) × (result ≤ 8 * term_places) }
{
    let mut at = 0;
    for (u, mark) in names.iter().enumerate() {
        if *mark == 1 {
            put_record(part, at, TermNo(u as u32), times[u] as u32);
            at += 8;
        }
    }
    at
}

// Writes the marked atoms into the part of the room that begins at their offset, and answers how many bytes they take.
// Kept: a writer of its own beside `write_names`, which has a time for each name; one writer of both would take the step as a closure that is lent the room.
fn write_atoms(part: &mut [u8], atoms: &[u8]) -> usize
    requires atoms_len_bound { length atoms.now ≤ atom_places }
    requires atoms_in_bounds { 4 * length (marked_from 1 atoms.now) ≤ length part.old }
    ensures part_after { part.new ≡ sets part.old 0 (atom_bytes (marked_from 1 atoms.now)) }
    ensures value { (result ≡ 4 * length (marked_from 1 atoms.now)) × (result ≤ 4 * last_atom) }
{
    let mut at = 0;
    for a in 1..atoms.len() {
        if atoms[a] == 1 {
            put_word(part, at, a as u32);
            at += 4;
        }
    }
    at
}

// Writes the timetable of the marked names, their times and the marked atoms, and answers its length.
pub fn write(room: &mut [u8], names: &[u8], times: &[u64], atoms: &[u8]) -> usize
    requires writer_rooms { WriterRooms names.now times.now atoms.now room.old }
    requires timely { Timely names.now times.now }
    ensures { WrittenTable (table_of (given names.now times.now atoms.now)) room.old room.new result }
{
    let a = write_names(&mut room[HEADER..], names, times);
    let at = HEADER + a;
    let b = write_atoms(&mut room[at..], atoms);
    let n = (a / 8) as u32;
    let m = (b / 4) as u32;
    write_header(room, n, m);
    at + b
}

// The number whose four bytes stand at a place.
pub fn word_at(table: &[u8], p: usize) -> u32
    requires { p + 4 ≤ length table.now }
    ensures { result ≡ word_at table.now p }
{
    u32::from_le_bytes([table[p], table[p + 1], table[p + 2], table[p + 3]])
}

// Whether records ascend and are within the bounds.
fn records_within(records: &[[u8; 8]]) -> bool
    ensures { let rs = map record_read records.now in result ≡ ascends 0 last_term (names_of rs) && times_fit rs }
{
    let mut low = 0;
    for record in records {
        let name = word_at(record, 0);
        let time = word_at(record, 4);
        if name < low || LAST_TERM < name || LATEST < time {
            return false;
        }
        low = name + 1;
    }
    true
}

// Whether atoms ascend and are within the bounds.
// Kept: beside `records_within`, which looks at the times in the same pass; with one generic function they would take a second.
fn atoms_within(atoms: &[[u8; 4]]) -> bool
    ensures { result ≡ ascends 1 last_atom (map atom_read atoms.now) }
{
    let mut low = 1;
    for atom in atoms {
        let atom = word_at(atom, 0);
        if atom < low || LAST_ATOM < atom {
            return false;
        }
        low = atom + 1;
    }
    true
}

// Whether a slice is a timetable.
fn is_table(table: &[u8]) -> bool
    ensures { result ≡ is_table table.now }
{
    if table.len() < HEADER {
        return false;
    }
    let n = word_at(table, 0) as usize;
    let m = word_at(table, 4) as usize;
    let first = word_at(table, 8) as usize;
    let second = word_at(table, 12) as usize;
    let at = HEADER + 8 * n;
    if table.len() != at + 4 * m || first != HEADER || second != at {
        return false;
    }
    let (records, _) = table[HEADER..at].as_chunks();
    let (atoms, _) = table[at..].as_chunks();
    records_within(records) && atoms_within(atoms)
}

// The time of a name among records, or 21.
fn time_among(records: &[[u8; 8]], name: TermNo) -> Result<u32, Refusal>
    ensures { as_answer result ≡ time_among name.0 (map record_read records.now) }
{
    let Some(record) = records.iter().find(|r| word_at(*r, 0) == name.0) else {
        return Err(Kind::NotNamed.at(name.0 as usize));
    };
    Ok(word_at(record, 4))
}

// The time of a name in a timetable; or 20 where the slice is none, or 21 where the name is not in it.
pub fn time_of(table: &[u8], name: TermNo) -> Result<u32, Refusal>
    ensures { as_answer result ≡ time_of table.now name.0 }
{
    if !is_table(table) {
        return Err(Kind::NotTable.at(0));
    }
    let n = word_at(table, 0) as usize;
    let (records, _) = table[HEADER..HEADER + 8 * n].as_chunks();
    time_among(records, name)
}
