// Lines of 16 bytes by value: read from a page and copied to it, and values of some bytes read from a line and written to it, by value or
// where it stands.
ghost use Rattle.std.specs.Prelude.{◌≡◌, ◌<◌, length};
ghost use Rattle.rules.specs.Line.{value_at, edit};
ghost use Rattle.lists.specs.Lines.{AsksBytes};
ghost use Rattle.pages.specs.Lines.{AsksPage, AsksArchive};
ghost use Rattle.pages.specs.Lines.{page_line, with_page_line, archive_line, with_archive_line};

// The line in a slot of a page: the pool's part that starts at the page's first byte is handed to the line reader.
pub fn read_page_line(pool: &[u8], page: u32, slot: u32) -> [u8; 16]
    requires { AsksPage page slot (length pool.now) }
    ensures { result ≡ page_line pool.now page slot }
{
    let first = 128 * (page as usize);
    lists::read_line(&pool[first..], 16 * (slot as usize))
}

// Copies a line to its slot of a page, through the same part.
pub fn write_page_line(pool: &mut [u8], page: u32, slot: u32, line: [u8; 16])
    requires { AsksPage page slot (length pool.old) }
    ensures { pool.new ≡ with_page_line pool.old page slot line }
{
    let first = 128 * (page as usize);
    lists::write_line(&mut pool[first..], 16 * (slot as usize), line);
}

// The part of the pool that holds it.
pub fn page_line<'a>(pool: &'a [u8], page: u32, slot: u32) -> &'a [u8]
    requires { AsksPage page slot (length pool.now) }
    ensures { result.now ≡ page_line pool.now page slot }
{
    let from = 128 * (page as usize) + 16 * (slot as usize);
    let end = from + 16;
    &pool[from..end]
}

// A line of the archive, whose blocks lie one after the other as pages do in the pool.
pub fn read_archive_line(archive: &[u8], line: u32) -> [u8; 16]
    requires { AsksArchive line (length archive.now) }
    ensures { result ≡ archive_line archive.now line }
{
    read_page_line(archive, line / 8, line % 8)
}

// The part of the archive that holds it.
pub fn archive_line<'a>(archive: &'a [u8], line: u32) -> &'a [u8]
    requires { AsksArchive line (length archive.now) }
    ensures { result.now ≡ archive_line archive.now line }
{
    page_line(archive, line / 8, line % 8)
}

// Copies a content to a line of the archive.
pub fn write_archive_line(archive: &mut [u8], line: u32, content: [u8; 16])
    requires { AsksArchive line (length archive.old) }
    ensures { archive.new ≡ with_archive_line archive.old line content }
{
    write_page_line(archive, line / 8, line % 8, content);
}

// The value of so many bytes of a line, from an offset on.
pub fn value_of(line: [u8; 16], width: u32, offset: u32) -> u32
    requires { AsksBytes width offset }
    ensures { result ≡ value_at width offset line }
{
    lists::read_value(&line, offset as usize, width)
}

// A line with the bytes of a value at an offset.
pub fn edited(line: [u8; 16], width: u32, offset: u32, value: u32) -> [u8; 16]
    requires { AsksBytes width offset }
    ensures { result ≡ edit width offset value line }
{
    let mut after = line;
    lists::write_value(&mut after, offset as usize, width, value);
    after
}

// Writes a value at an offset of the line in a slot of a page, where the line stands.
pub fn edit_page_line(pool: &mut [u8], page: u32, slot: u32, width: u32, offset: u32, value: u32)
    requires { (AsksPage page slot (length pool.old)) × (AsksBytes width offset) }
    ensures { pool.new ≡ with_page_line pool.old page slot (edit width offset value (page_line pool.old page slot)) }
{
    let at = 128 * page + 16 * slot + offset;
    lists::write_value(pool, at as usize, width, value);
}
