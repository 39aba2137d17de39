// What is wrong with the bytes of a file that are no resource.
ghost use Rattle.std.specs.Prelude.{◌≡◌, ◌++◌};
ghost use Rattle.reply_pieces.specs.Pieces.{text_of};
ghost use Rattle.bsp29_tables.specs.declared.fault.BspFault.TheVariants.{BadRow, MissingFrame};
ghost use Rattle.info_text.specs.Faults.{brush_wrong, of_number, alias_wrong, fault_text, field_text, numbered, part_text};
ghost use Rattle.info_text.specs.Faults.{row_text, sprite_wrong, wad_wrong, wav_wrong};

use alias_load::{AliasFault, AliasField, AliasPart};
use bsp29_tables::BspFault;
use reply_pieces::Piece;
use res_table::Fault;
use sprite_load::SpriteFault;
use wad2_lumps::WadFault;
use wav_load::WavFault;

const NONE: Piece<'static> = Piece::Text(b"");

fn word(text: &'static [u8]) -> [Piece<'static>; 4]
    ensures { text_of result ≡ text.now }
{
    [Piece::Text(text), NONE, NONE, NONE]
}

fn two_words(first: &'static [u8], second: &'static [u8]) -> [Piece<'static>; 4]
    ensures { text_of result ≡ first.now ++ second.now }
{
    [Piece::Text(first), Piece::Text(second), NONE, NONE]
}

fn numbered(text: &'static [u8], number: u32) -> [Piece<'static>; 4]
    ensures { text_of result ≡ numbered text.now number }
{
    [
        Piece::Text(text),
        Piece::Number(u64::from(number)),
        NONE,
        NONE,
    ]
}

// What is wrong in a row of a part.
fn in_row(text: &'static [u8], part: AliasPart, row: u32) -> [Piece<'static>; 4]
    ensures { text_of result ≡ row_text text.now part row }
{
    [
        Piece::Text(text),
        Piece::Text(part_text(part)),
        Piece::Text(b" "),
        Piece::Number(u64::from(row)),
    ]
}

fn part_text(part: AliasPart) -> &'static [u8]
    ensures { result.now ≡ part_text part }
{
    match part {
        AliasPart::Skin => b"skin",
        AliasPart::St => b"st",
        AliasPart::Triangle => b"triangle",
        AliasPart::Frame => b"frame",
    }
}

fn field_text(field: AliasField) -> &'static [u8]
    ensures { result.now ≡ field_text field }
{
    match field {
        AliasField::Numskins => b"numskins",
        AliasField::Skinwidth => b"skinwidth",
        AliasField::Skinheight => b"skinheight",
        AliasField::Numverts => b"numverts",
        AliasField::Numtris => b"numtris",
        AliasField::Numframes => b"numframes",
    }
}

fn alias_pieces(fault: AliasFault) -> [Piece<'static>; 4]
    ensures { text_of result ≡ alias_wrong fault }
{
    match fault {
        AliasFault::Short => word(b"short"),
        AliasFault::Version { found } => numbered(b"version ", found),
        AliasFault::Header { field } => two_words(b"header ", field_text(field)),
        AliasFault::Truncated { part } => two_words(b"truncated ", part_text(part)),
        AliasFault::Group { part, row } => in_row(b"group ", part, row),
        AliasFault::Interval { part, row } => in_row(b"interval ", part, row),
        AliasFault::Triangle { row } => numbered(b"triangle ", row),
    }
}

// What is wrong with a lump, or a texture, of this number.
fn of_number(text: &'static [u8], number: u32, wrong: &'static [u8]) -> [Piece<'static>; 4]
    ensures { text_of result ≡ of_number text.now number wrong.now }
{
    [
        Piece::Text(text),
        Piece::Number(u64::from(number)),
        Piece::Text(wrong),
        NONE,
    ]
}

fn in_lump(lump: u32, row: u32) -> [Piece<'static>; 4]
    ensures { text_of result ≡ brush_wrong (BadRow lump row) }
{
    [
        Piece::Text(b"lump "),
        Piece::Number(u64::from(lump)),
        Piece::Text(b" row "),
        Piece::Number(u64::from(row)),
    ]
}

fn without_frame(texture: u32, frame: u8) -> [Piece<'static>; 4]
    ensures { text_of result ≡ brush_wrong (MissingFrame texture frame) }
{
    [
        Piece::Text(b"texture "),
        Piece::Number(u64::from(texture)),
        Piece::Text(b" missing frame "),
        Piece::Byte(frame),
    ]
}

fn brush_pieces(fault: BspFault) -> [Piece<'static>; 4]
    ensures { text_of result ≡ brush_wrong fault }
{
    match fault {
        BspFault::Short => word(b"short"),
        BspFault::Version { found } => numbered(b"version ", found),
        BspFault::LumpOutside { lump } => of_number(b"lump ", lump, b" outside"),
        BspFault::LumpSize { lump } => of_number(b"lump ", lump, b" size"),
        BspFault::LumpCount { lump } => of_number(b"lump ", lump, b" too many"),
        BspFault::NoModel => word(b"no model"),
        BspFault::TextureTable => word(b"texture table"),
        BspFault::TextureOutside { texture } => of_number(b"texture ", texture, b" outside"),
        BspFault::TextureSize { texture } => of_number(b"texture ", texture, b" size"),
        BspFault::BadAnimation { texture } => of_number(b"texture ", texture, b" bad animation"),
        BspFault::MissingFrame { texture, frame } => without_frame(texture, frame),
        BspFault::BadRow { lump, row } => in_lump(lump, row),
        BspFault::TooLarge => word(b"too large"),
    }
}

fn sprite_pieces(fault: SpriteFault) -> [Piece<'static>; 4]
    ensures { text_of result ≡ sprite_wrong fault }
{
    match fault {
        SpriteFault::Short => word(b"short"),
        SpriteFault::Version { found } => numbered(b"version ", found),
        SpriteFault::Frames => word(b"header numframes"),
        SpriteFault::Truncated => word(b"truncated frame"),
        SpriteFault::Group { row } => numbered(b"group frame ", row),
        SpriteFault::Interval { row } => numbered(b"interval frame ", row),
        SpriteFault::Size { row } => numbered(b"size frame ", row),
    }
}

fn wad_pieces(fault: WadFault) -> [Piece<'static>; 4]
    ensures { text_of result ≡ wad_wrong fault }
{
    match fault {
        WadFault::NotWad => word(b"not wad"),
        WadFault::TableOutside => word(b"table outside"),
    }
}

fn wav_pieces(fault: WavFault) -> [Piece<'static>; 4]
    ensures { text_of result ≡ wav_wrong fault }
{
    match fault {
        WavFault::NotRiff => word(b"not riff"),
        WavFault::NoFmt => word(b"no fmt"),
        WavFault::NotPcm => word(b"not pcm"),
        WavFault::NotMono => word(b"not mono"),
        WavFault::Width => word(b"width"),
        WavFault::NoData => word(b"no data"),
        WavFault::BadLoop => word(b"bad loop"),
        WavFault::TooLong => word(b"too long"),
        WavFault::Rate { rate } => numbered(b"rate ", rate),
    }
}

// What is wrong, in the pieces of its text; those that it doesn't need are empty.
pub(crate) fn fault_pieces(fault: Fault) -> [Piece<'static>; 4]
    ensures { text_of result ≡ fault_text fault }
{
    match fault {
        Fault::Brush(fault) => brush_pieces(fault),
        Fault::Alias(fault) => alias_pieces(fault),
        Fault::Sprite(fault) => sprite_pieces(fault),
        Fault::Wad(fault) => wad_pieces(fault),
        Fault::Sound(fault) => wav_pieces(fault),
    }
}
