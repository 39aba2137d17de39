// The replies of commands. Each text is decided here once.
ghost use Rattle.std.specs.Prelude.{◌≤◌, ◌∷◌, [], IfOk, Ok, drop, false, codes, length};
ghost use Rattle.search_paths.specs.Path.{rows_of};
ghost use Rattle.reply_pieces.specs.Pieces.{text_of, joined, PutsText};
ghost use Rattle.cmd_buffer.specs.Aliases.{HoldsAliases, alias_texts};
ghost use Rattle.block_report.specs.Reports.{report_text};
ghost use Rattle.info_text.specs.Dumps.{dump_text};
ghost use Rattle.info_text.specs.Infos.{info_text};
ghost use Rattle.info_text.specs.LeafRows.{leaf_text};
ghost use Rattle.info_text.specs.Lines.{bad_text, resource_text};
ghost use Rattle.res_table.specs.Images.{HasFileName, IsImage, file_of};
ghost use Rattle.wad2_lumps.specs.Pictures.{pixels_end};
ghost use Rattle.console_session.specs.Pictures.{picture_told};
ghost use Rattle.console_session.specs.Telling.{Puts, acquired_told, refused_told, load_told, block_told, cvar_told, alias_told};
ghost use Rattle.console_session.specs.Commands.{missing_text, beyond_text, short_text, full_text, long_name_text};
ghost use Rattle.console_session.specs.Commands.{absent_text, block_text, map_text, not_map_text, not_wad_text};
ghost use Rattle.console_session.specs.Commands.{no_map_text, no_wad_text, spaced};
ghost use Rattle.console_session.specs.Commands.{exec_text, file_text, cvar_text, expansion_text, unknown_text};
ghost use Rattle.console_session.specs.Commands.{alias_line, alias_lines, alias_list, mount_line, mount_lines};

use crate::ends::{Fault, Next};
use base_fields::GameName;
use block_report::report;
use cmd_buffer::{AliasError, Aliases, Words};
use file_load::LoadError;
use info_text::{
    LumpError, dump, info, put_bad, put_leaf_row, put_lump_error, put_picture, put_resource,
};
use mem_model::{Place, RoomError, Store, ZoneError};
use outside_io::{Folder, Sink, SinkFailed};
use reply_pieces::{Piece, put_all};
use res_table::{AcquireError, Fault as Wrong, Kind, Res, Table};
use search_paths::{MountRow, Paths};
use wad2_lumps::{LumpName, Picture};

// A path has 65536 folders at most, each with 32 packs at most.
const MOST_MOUNTS: u32 = 33 * 65536;

// Puts a reply, after which the console goes on.
pub fn reply<O: Sink>(out: &mut O, pieces: &[Piece]) -> Result<Next, Fault>
    ensures { Puts O.Sink (Ok (text_of pieces.now)) Next.Goes out.old out.new result }
{
    match put_all(out, pieces) {
        Ok(()) => Ok(Next::Goes),
        Err(_) => Err(Fault::Write),
    }
}

pub fn put_runaway<O: Sink>(out: &mut O) -> Result<bool, Fault>
    ensures { Puts O.Sink (Ok (codes "runaway\n")) false out.old out.new result }
{
    match out.put(b"runaway\n") {
        Ok(()) => Ok(false),
        Err(_) => Err(Fault::Write),
    }
}

pub fn put_too_long<O: Sink>(out: &mut O) -> Result<Next, Fault>
    ensures { Puts O.Sink (Ok (joined (codes "line too long\n" ∷ []))) Next.Goes out.old out.new result }
{
    reply(out, &[Piece::Text(b"line too long\n")])
}

pub fn put_bad_name<O: Sink>(out: &mut O) -> Result<Next, Fault>
    ensures { Puts O.Sink (Ok (joined (codes "bad name\n" ∷ []))) Next.Goes out.old out.new result }
{
    reply(out, &[Piece::Text(b"bad name\n")])
}

pub fn put_bad_number<O: Sink>(out: &mut O) -> Result<Next, Fault>
    ensures { Puts O.Sink (Ok (joined (codes "bad number\n" ∷ []))) Next.Goes out.old out.new result }
{
    reply(out, &[Piece::Text(b"bad number\n")])
}

// Says that a block of this need was refused.
fn put_short<O: Sink>(out: &mut O, asked: u64) -> Result<Next, Fault>
    ensures { Puts O.Sink (Ok (short_text asked)) Next.Goes out.old out.new result }
{
    reply(
        out,
        &[
            Piece::Text(b"failed on "),
            Piece::Number(asked),
            Piece::Text(b" bytes\n"),
        ],
    )
}

// Says that a zone block of this size was refused.
fn put_full<O: Sink>(out: &mut O, asked: u64) -> Result<Next, Fault>
    ensures { Puts O.Sink (Ok (full_text asked)) Next.Goes out.old out.new result }
{
    reply(
        out,
        &[
            Piece::Text(b"zone full: "),
            Piece::Number(asked),
            Piece::Text(b" bytes\n"),
        ],
    )
}

// Says of a file that there is none.
fn put_missing<'a, O: Sink>(
    out: &mut O,
    missing: &'a [u8],
    name: &'a GameName,
) -> Result<Next, Fault>
    ensures { Puts O.Sink (Ok (missing_text missing.now name.now)) Next.Goes out.old out.new result }
{
    reply(
        out,
        &[
            Piece::Text(missing),
            Piece::Text(name.bytes()),
            Piece::Text(b"\n"),
        ],
    )
}

// Says that a file ends past the end of its pack.
fn put_beyond<O: Sink>(out: &mut O, name: &GameName, end: u64, whole: u64) -> Result<Next, Fault>
    ensures { Puts O.Sink (Ok (beyond_text name.now end whole)) Next.Goes out.old out.new result }
{
    reply(
        out,
        &[
            Piece::Text(b"beyond pack: "),
            Piece::Text(name.bytes()),
            Piece::Text(b" ends at "),
            Piece::Number(end),
            Piece::Text(b" of "),
            Piece::Number(whole),
            Piece::Text(b"\n"),
        ],
    )
}

// Says why a file was not loaded.
pub fn put_load_error<'a, O: Sink>(
    out: &mut O,
    missing: &'a [u8],
    name: &'a GameName,
    error: LoadError,
) -> Result<Next, Fault>
    ensures { Puts O.Sink (load_told missing.now name.now error) Next.Goes out.old out.new result }
{
    match error {
        LoadError::NotFound => put_missing(out, missing, name),
        LoadError::BeyondPack { end, length } => put_beyond(out, name, end, length),
        LoadError::NoRoom { asked, .. } => put_short(out, asked),
        LoadError::FolderFault { folder, .. } => Err(Fault::Folder { folder }),
        LoadError::OutOfMemory => Err(Fault::Memory),
    }
}

// Shows a new block.
fn put_place<'a, O: Sink>(
    out: &mut O,
    title: &'a [u8],
    name: &'a [u8],
    size: u64,
    place: Place,
) -> Result<Next, Fault>
    ensures { Puts O.Sink (Ok (block_text title.now name.now size place.0)) Next.Goes out.old out.new result }
{
    reply(
        out,
        &[
            Piece::Text(title),
            Piece::Text(name),
            Piece::Text(b" "),
            Piece::Number(size),
            Piece::Text(b" at "),
            Piece::Number(u64::from(place.0)),
            Piece::Text(b"\n"),
        ],
    )
}

// Shows a loaded file.
pub fn put_file<O: Sink>(
    out: &mut O,
    name: &GameName,
    size: u64,
    place: Place,
) -> Result<Next, Fault>
    ensures { Puts O.Sink (Ok (file_text name.now size place.0)) Next.Goes out.old out.new result }
{
    put_place(out, b"file ", name.bytes(), size, place)
}

// Shows a new block, or says why there is none.
pub fn put_block<'a, O: Sink>(
    out: &mut O,
    title: &'a [u8],
    name: &'a GameName,
    size: u32,
    given: Result<Place, RoomError>,
) -> Result<Next, Fault>
    ensures { Puts O.Sink (block_told title.now name.now size given) Next.Goes out.old out.new result }
{
    match given {
        Ok(place) => put_place(out, title, name.bytes(), u64::from(size), place),
        Err(RoomError::NoRoom { asked, .. }) => put_short(out, asked),
        Err(RoomError::OutOfMemory) => Err(Fault::Memory),
    }
}

// Says nothing of a cvar that was set, or why it was not.
pub fn put_cvar_set<O: Sink>(out: &mut O, set: Result<bool, ZoneError>) -> Result<Next, Fault>
    ensures { Puts O.Sink (cvar_told set) Next.Goes out.old out.new result }
{
    match set {
        Ok(_) => Ok(Next::Goes),
        Err(ZoneError::Full { asked }) => put_full(out, asked),
        Err(ZoneError::OutOfMemory) => Err(Fault::Memory),
    }
}

fn put_long_name<O: Sink>(out: &mut O) -> Result<Next, Fault>
    ensures { Puts O.Sink (Ok (long_name_text)) Next.Goes out.old out.new result }
{
    reply(out, &[Piece::Text(b"Alias name is too long\n")])
}

// Says nothing of an alias that was set, or why it was not.
pub fn put_alias_set<O: Sink>(out: &mut O, set: Result<(), AliasError>) -> Result<Next, Fault>
    ensures { Puts O.Sink (alias_told set) Next.Goes out.old out.new result }
{
    match set {
        Ok(()) => Ok(Next::Goes),
        Err(AliasError::LongName) => put_long_name(out),
        Err(AliasError::Zone(ZoneError::Full { asked })) => put_full(out, asked),
        Err(AliasError::Zone(ZoneError::OutOfMemory)) => Err(Fault::Memory),
    }
}

// Says nothing of an alias whose value was inserted, and else that there was no room.
pub fn put_inserted<O: Sink>(out: &mut O, inserted: bool) -> Result<Next, Fault>
    ensures { Puts O.Sink (Ok (expansion_text inserted)) Next.Goes out.old out.new result }
{
    if inserted {
        return Ok(Next::Goes);
    }
    reply(out, &[Piece::Text(b"overflow\n")])
}

// Shows the value of a cvar.
pub fn put_cvar<'a, O: Sink>(out: &mut O, name: &'a [u8], value: &'a [u8]) -> Result<Next, Fault>
    ensures { Puts O.Sink (Ok (cvar_text name.now value.now)) Next.Goes out.old out.new result }
{
    reply(
        out,
        &[
            Piece::Text(b"\""),
            Piece::Text(name),
            Piece::Text(b"\" is \""),
            Piece::Text(value),
            Piece::Text(b"\"\n"),
        ],
    )
}

pub fn put_unknown<O: Sink>(out: &mut O, word: &[u8]) -> Result<Next, Fault>
    ensures { Puts O.Sink (Ok (unknown_text word.now)) Next.Goes out.old out.new result }
{
    reply(
        out,
        &[
            Piece::Text(b"Unknown command \""),
            Piece::Text(word),
            Piece::Text(b"\"\n"),
        ],
    )
}

// Shows the blocks of the memory.
pub fn put_report<M: Store, O: Sink>(store: &M, out: &mut O) -> Result<Next, Fault>
    ensures { Puts O.Sink (Ok (report_text (M.state store.now))) Next.Goes out.old out.new result }
{
    match report(store, out) {
        Ok(()) => Ok(Next::Goes),
        Err(_) => Err(Fault::Write),
    }
}

pub fn put_bad_kind<O: Sink>(out: &mut O) -> Result<Next, Fault>
    ensures { Puts O.Sink (Ok (joined (codes "bad kind\n" ∷ []))) Next.Goes out.old out.new result }
{
    reply(out, &[Piece::Text(b"bad kind\n")])
}

fn put_table_full<O: Sink>(out: &mut O) -> Result<Next, Fault>
    ensures { Puts O.Sink (Ok (joined (codes "table full\n" ∷ []))) Next.Goes out.old out.new result }
{
    reply(out, &[Piece::Text(b"table full\n")])
}

// Shows a resource.
pub fn put_res<O: Sink>(out: &mut O, name: &GameName, res: &Res) -> Result<Next, Fault>
    ensures { Puts O.Sink (Ok (resource_text name.now res.now)) Next.Goes out.old out.new result }
{
    match put_resource(name, res, out) {
        Ok(()) => Ok(Next::Goes),
        Err(_) => Err(Fault::Write),
    }
}

// Says why a file is no resource.
fn put_fault<O: Sink>(out: &mut O, name: &GameName, fault: Wrong) -> Result<Next, Fault>
    ensures { Puts O.Sink (Ok (bad_text name.now fault)) Next.Goes out.old out.new result }
{
    match put_bad(name, fault, out) {
        Ok(()) => Ok(Next::Goes),
        Err(_) => Err(Fault::Write),
    }
}

// Says why a resource was not acquired.
pub fn put_refused<O: Sink>(
    out: &mut O,
    table: Table,
    name: &GameName,
    error: AcquireError,
) -> Result<Next, Fault>
    requires { HasFileName table name.now }
    ensures { Puts O.Sink (refused_told name.now (file_of table name.now) error) Next.Goes out.old out.new result }
{
    match error {
        AcquireError::TableFull => put_table_full(out),
        AcquireError::NotFound => put_missing(out, b"not found: ", &table.file(name)),
        AcquireError::BeyondPack { end, length } => {
            put_beyond(out, &table.file(name), end, length)
        }
        AcquireError::Bad(fault) => put_fault(out, name, fault),
        AcquireError::NoRoom { asked, .. } => put_short(out, asked),
        AcquireError::FolderFault { folder } => Err(Fault::Folder { folder }),
        AcquireError::OutOfMemory => Err(Fault::Memory),
    }
}

// Shows a resource that was acquired, or says why there is none.
pub fn put_acquired<O: Sink>(
    out: &mut O,
    table: Table,
    name: &GameName,
    answer: Result<Res, AcquireError>,
) -> Result<Next, Fault>
    requires { HasFileName table name.now }
    ensures { Puts O.Sink (acquired_told (resource_text name.now) name.now (file_of table name.now) answer) Next.Goes
        out.old out.new result }
{
    match answer {
        Ok(res) => put_res(out, name, &res),
        Err(error) => put_refused(out, table, name, error),
    }
}

// Shows a map that was acquired, or says why there is none.
pub fn put_map<O: Sink>(
    out: &mut O,
    file: &GameName,
    answer: Result<Res, AcquireError>,
) -> Result<Next, Fault>
    requires { HasFileName Table.Models file.now }
    ensures { Puts O.Sink (acquired_told (map_text file.now) file.now file.now answer) Next.Goes out.old out.new result }
{
    match answer {
        Ok(res) if res.kind == Kind::Brush => put_res(out, file, &res),
        Ok(_) => put_not_map(out, file),
        Err(error) => put_refused(out, Table::Models, file, error),
    }
}

// Says of a file that it is no map.
fn put_not_map<O: Sink>(out: &mut O, file: &GameName) -> Result<Next, Fault>
    ensures { Puts O.Sink (Ok (not_map_text file.now)) Next.Goes out.old out.new result }
{
    reply(
        out,
        &[Piece::Text(file.bytes()), Piece::Text(b" is no map\n")],
    )
}

// Says of a model that it is no wad.
pub fn put_not_wad<O: Sink>(out: &mut O, name: &GameName) -> Result<Next, Fault>
    ensures { Puts O.Sink (Ok (not_wad_text name.now)) Next.Goes out.old out.new result }
{
    reply(
        out,
        &[Piece::Text(name.bytes()), Piece::Text(b" is no wad\n")],
    )
}

// Says that there is no current wad.
pub fn put_no_wad<O: Sink>(out: &mut O) -> Result<Next, Fault>
    ensures { Puts O.Sink (Ok (no_wad_text)) Next.Goes out.old out.new result }
{
    reply(out, &[Piece::Text(b"no wad\n")])
}

// Shows a picture, or says why there is none to show.
pub fn put_pic<O: Sink>(
    out: &mut O,
    name: &LumpName,
    image: &[u8],
    picture: Result<Picture, LumpError>,
) -> Result<Next, Fault>
    requires { IfOk picture (λ p. pixels_end p ≤ length image.now) }
    ensures { Puts O.Sink (Ok (picture_told name.now image.now picture)) Next.Goes out.old out.new result }
{
    let put = match picture {
        Ok(picture) => put_picture(name, &picture, image, out),
        Err(error) => put_lump_error(name, error, out),
    };
    match put {
        Ok(()) => Ok(Next::Goes),
        Err(_) => Err(Fault::Write),
    }
}

// Says that there is no current map.
pub fn put_no_map<O: Sink>(out: &mut O) -> Result<Next, Fault>
    ensures { Puts O.Sink (Ok (no_map_text)) Next.Goes out.old out.new result }
{
    reply(out, &[Piece::Text(b"no map\n")])
}

// Tells which leafs are seen from a leaf of a map.
pub fn put_leaf<O: Sink>(out: &mut O, image: &[u8], leaf: u32) -> Result<Next, Fault>
    requires { IsImage Kind.Brush image.now }
    ensures { Puts O.Sink (Ok (leaf_text leaf image.now)) Next.Goes out.old out.new result }
{
    match put_leaf_row(image, leaf, out) {
        Ok(()) => Ok(Next::Goes),
        Err(_) => Err(Fault::Write),
    }
}

// Says of a resource that it isn't there.
pub fn put_absent<O: Sink>(out: &mut O, name: &GameName) -> Result<Next, Fault>
    ensures { Puts O.Sink (Ok (absent_text name.now)) Next.Goes out.old out.new result }
{
    reply(
        out,
        &[Piece::Text(name.bytes()), Piece::Text(b" is absent\n")],
    )
}

// Tells what an image says.
pub fn put_info<O: Sink>(
    out: &mut O,
    kind: Kind,
    name: &GameName,
    image: &[u8],
) -> Result<Next, Fault>
    requires { IsImage kind image.now }
    ensures { Puts O.Sink (Ok (info_text kind name.now image.now)) Next.Goes out.old out.new result }
{
    match info(kind, name, image, out) {
        Ok(()) => Ok(Next::Goes),
        Err(_) => Err(Fault::Write),
    }
}

// Tells the bytes of an image.
pub fn put_dump<O: Sink>(out: &mut O, name: &GameName, image: &[u8]) -> Result<Next, Fault>
    ensures { Puts O.Sink (Ok (dump_text name.now image.now)) Next.Goes out.old out.new result }
{
    match dump(name, image, out) {
        Ok(()) => Ok(Next::Goes),
        Err(_) => Err(Fault::Write),
    }
}

fn put_mount<O: Sink>(mount: MountRow, out: &mut O) -> Result<(), SinkFailed>
    ensures { PutsText O.Sink (mount_line mount) out.old out.new result }
{
    match mount {
        MountRow::Folder { folder } => put_all(
            out,
            &[
                Piece::Text(b"folder "),
                Piece::Number(u64::from(folder)),
                Piece::Text(b"\n"),
            ],
        ),
        MountRow::Pack {
            folder,
            pack,
            count,
        } => put_all(
            out,
            &[
                Piece::Text(b"pack "),
                Piece::Number(u64::from(folder)),
                Piece::Text(b" pak"),
                Piece::Number(u64::from(pack)),
                Piece::Text(b".pak "),
                Piece::Number(u64::from(count)),
                Piece::Text(b" files\n"),
            ],
        ),
    }
}

fn put_mount_lines<F: Folder, O: Sink>(paths: &Paths<F>, out: &mut O) -> Result<(), SinkFailed>
    ensures { PutsText O.Sink (mount_lines (rows_of paths.now)) out.old out.new result }
{
    for number in 0..MOST_MOUNTS {
        let Some(mount) = paths.row(number) else {
            return Ok(());
        };
        put_mount(mount, out)?;
    }
    Ok(())
}

// Shows the mounts, from the front of the path.
pub fn put_mounts<F: Folder, O: Sink>(paths: &Paths<F>, out: &mut O) -> Result<Next, Fault>
    ensures { Puts O.Sink (Ok (mount_lines (rows_of paths.now))) Next.Goes out.old out.new result }
{
    match put_mount_lines(paths, out) {
        Ok(()) => Ok(Next::Goes),
        Err(_) => Err(Fault::Write),
    }
}

pub fn put_executed<O: Sink>(out: &mut O, name: &GameName, inserted: bool) -> Result<Next, Fault>
    ensures { Puts O.Sink (Ok (exec_text name.now inserted)) Next.Goes out.old out.new result }
{
    reply(
        out,
        &[
            Piece::Text(b"execing "),
            Piece::Text(name.bytes()),
            Piece::Text(b"\n"),
            Piece::Text(if inserted { b"" } else { b"overflow\n" }),
        ],
    )
}

fn put_words<O: Sink>(words: &Words<'_>, out: &mut O) -> Result<(), SinkFailed>
    ensures { PutsText O.Sink (spaced (drop 1 words.now)) out.old out.new result }
{
    let mut left = words.rest();
    'words: while let Some(word) = left.first() {
        put_all(out, &[Piece::Text(word), Piece::Text(b" ")])?;
        left = left.rest();
    }
    put_all(out, &[Piece::Text(b"\n")])
}

// Each word after the first and a space, and a newline.
pub fn put_echo<O: Sink>(words: &Words<'_>, out: &mut O) -> Result<Next, Fault>
    ensures { Puts O.Sink (Ok (spaced (drop 1 words.now))) Next.Goes out.old out.new result }
{
    match put_words(words, out) {
        Ok(()) => Ok(Next::Goes),
        Err(_) => Err(Fault::Write),
    }
}

fn put_alias<'a, O: Sink>(name: &'a [u8], value: &'a [u8], out: &mut O) -> Result<(), SinkFailed>
    ensures { PutsText O.Sink (alias_line (record { name = name.now; value = value.now })) out.old out.new result }
{
    put_all(
        out,
        &[
            Piece::Text(name),
            Piece::Text(b" : "),
            Piece::Text(value),
            Piece::Text(b"\n"),
        ],
    )
}

fn put_alias_lines<M: Store, O: Sink>(
    store: &M,
    aliases: &Aliases,
    out: &mut O,
) -> Result<(), SinkFailed>
    requires { HoldsAliases (M.state store.now) aliases.now }
    ensures { PutsText O.Sink (alias_lines (alias_texts (M.state store.now) aliases.now)) out.old out.new result }
{
    let mut left = *aliases;
    'aliases: while let Some((name, value)) = left.row(store, 0) {
        put_alias(name, value, out)?;
        left = left.older(store);
    }
    Ok(())
}

fn put_alias_list<M: Store, O: Sink>(
    store: &M,
    aliases: &Aliases,
    out: &mut O,
) -> Result<(), SinkFailed>
    requires { HoldsAliases (M.state store.now) aliases.now }
    ensures { PutsText O.Sink (alias_list (alias_texts (M.state store.now) aliases.now)) out.old out.new result }
{
    put_all(out, &[Piece::Text(b"Current alias commands:\n")])?;
    put_alias_lines(store, aliases, out)
}

// Shows the aliases, the newest first.
pub fn put_aliases<M: Store, O: Sink>(
    store: &M,
    aliases: &Aliases,
    out: &mut O,
) -> Result<Next, Fault>
    requires { HoldsAliases (M.state store.now) aliases.now }
    ensures { Puts O.Sink (Ok (alias_list (alias_texts (M.state store.now) aliases.now))) Next.Goes
        out.old out.new result }
{
    match put_alias_list(store, aliases, out) {
        Ok(()) => Ok(Next::Goes),
        Err(_) => Err(Fault::Write),
    }
}
