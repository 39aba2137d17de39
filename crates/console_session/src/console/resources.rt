// The commands on resources.
ghost use Rattle.std.specs.Prelude.{◌≡◌, ◌≤◌, length, IfOk, IfSome, MatchOption, None, Some};
ghost use Rattle.res_table.specs.Images.{IsImage};
ghost use Rattle.wad2_lumps.specs.Lumps.{lump_in};
ghost use Rattle.wad2_lumps.specs.Pictures.{pixels_end};
ghost use Rattle.console_session.specs.Commands.{answer_acquire, answer_dump, answer_info, answer_map, answer_pic};
ghost use Rattle.console_session.specs.Commands.{answer_vis, answer_wad, map_after, map_image, wad_image};
ghost use Rattle.console_session.specs.Holding.{Holds};
ghost use Rattle.console_session.specs.Pictures.{picture_of};
ghost use Rattle.console_session.specs.Serving.{seen, Does};

use crate::console::Console;
use crate::ends::{Fault, Next};
use crate::replies::{
    put_absent, put_acquired, put_bad_kind, put_bad_name, put_bad_number, put_dump, put_info,
    put_leaf, put_map, put_no_map, put_no_wad, put_not_wad, put_pic, put_refused, put_res,
};
use base_fields::GameName;
use info_text::LumpError;
use map_change::change_map;
use mem_model::Store;
use outside_io::{Folder, Sink};
use res_table::{AcquireError, Kind, Res, Table};
use wad2_lumps::{Lump, LumpName, PicFault, Picture, cleaned, lump, picture};

impl<M: Store, F: Folder> Console<M, F> {
    // Acquires the resource of a name.
    pub(super) fn acquire<O: Sink>(
        &mut self,
        table: Table,
        name: Option<GameName>,
        out: &mut O,
    ) -> Result<Next, Fault>
        requires holds { Holds (seen M.Store F.Folder self.old) }
        ensures { Does M.Store F.Folder O.Sink (answer_acquire table name) self.old self.new out.old out.new result }
    {
        let Some(name) = name else {
            return put_bad_name(out);
        };
        if !table.has_file(&name) {
            return put_bad_name(out);
        }
        let answer = self
            .table
            .acquire(&mut self.store, &mut self.paths, table, &name);
        put_acquired(out, table, &name, answer)
    }

    // Tells what the image of a resource says of it.
    pub(super) fn info<O: Sink>(
        &mut self,
        table: Option<Table>,
        name: Option<GameName>,
        out: &mut O,
    ) -> Result<Next, Fault>
        requires holds { Holds (seen M.Store F.Folder self.old) }
        ensures { Does M.Store F.Folder O.Sink (answer_info table name) self.old self.new out.old out.new result }
    {
        let Some(table) = table else {
            return put_bad_kind(out);
        };
        let Some(name) = name else {
            return put_bad_name(out);
        };
        match self.table.look(&self.store, table, &name) {
            Some((kind, image)) => put_info(out, kind, &name, image),
            None => put_absent(out, &name),
        }
    }

    // Tells the bytes of the image of a resource.
    pub(super) fn dump<O: Sink>(
        &mut self,
        table: Option<Table>,
        name: Option<GameName>,
        out: &mut O,
    ) -> Result<Next, Fault>
        requires holds { Holds (seen M.Store F.Folder self.old) }
        ensures { Does M.Store F.Folder O.Sink (answer_dump table name) self.old self.new out.old out.new result }
    {
        let Some(table) = table else {
            return put_bad_kind(out);
        };
        let Some(name) = name else {
            return put_bad_name(out);
        };
        match self.table.look(&self.store, table, &name) {
            Some((_, image)) => put_dump(out, &name, image),
            None => put_absent(out, &name),
        }
    }
    // Acquires the model of a name, which is the current wad then, where it is a wad.
    pub(super) fn take_wad<O: Sink>(
        &mut self,
        name: Option<GameName>,
        out: &mut O,
    ) -> Result<Next, Fault>
        requires holds { Holds (seen M.Store F.Folder self.old) }
        ensures { Does M.Store F.Folder O.Sink (answer_wad name) self.old self.new out.old out.new result }
    {
        let Some(name) = name else {
            return put_bad_name(out);
        };
        let answer = self
            .table
            .acquire(&mut self.store, &mut self.paths, Table::Models, &name);
        let res = match answer {
            Ok(res) => res,
            Err(error) => return put_refused(out, Table::Models, &name, error),
        };
        match res.kind {
            Kind::Wad => {
                self.wad = Some(name.copied());
                put_res(out, &name, &res)
            }
            _ => put_not_wad(out, &name),
        }
    }

    // Frees what lies behind the host level, and acquires the map of this file, which is the current one then, where it is
    // a brush model. Else there is none, since the last one may have been freed.
    pub(super) fn change_map<O: Sink>(
        &mut self,
        file: Option<GameName>,
        out: &mut O,
    ) -> Result<Next, Fault>
        requires holds { Holds (seen M.Store F.Folder self.old) }
        ensures { Does M.Store F.Folder O.Sink (answer_map file) self.old self.new out.old out.new result }
    {
        let Some(file) = file else {
            return put_bad_name(out);
        };
        let answer = change_map(
            &mut self.store,
            &mut self.table,
            &mut self.paths,
            self.level,
            &file,
        );
        self.map = map_after(&file, answer);
        put_map(out, &file, answer)
    }

    // The image of the current wad, where it is there.
    fn wad_image(&self) -> Option<&[u8]>
        requires holds { Holds (seen M.Store F.Folder self.now) }
        ensures seen { MatchOption result (wad_image (seen M.Store F.Folder self.now) ≡ None)
            (λ image. wad_image (seen M.Store F.Folder self.now) ≡ Some image.now) }
        ensures image { IfSome result (λ image. IsImage Kind.Wad image.now) }
    {
        let name = self.wad.as_ref()?;
        match self.table.look(&self.store, Table::Models, name)? {
            (Kind::Wad, image) => Some(image),
            _ => None,
        }
    }

    // Shows a picture of the current wad.
    pub(super) fn pic<O: Sink>(&mut self, word: &[u8], out: &mut O) -> Result<Next, Fault>
        requires holds { Holds (seen M.Store F.Folder self.old) }
        ensures { Does M.Store F.Folder O.Sink (answer_pic word.now) self.old self.new out.old out.new result }
    {
        let Some(image) = self.wad_image() else {
            return put_no_wad(out);
        };
        let name = cleaned(word);
        put_pic(out, &name, image, picture_of(image, &name))
    }

    // The image of the current map, where it is there.
    fn map_image(&self) -> Option<&[u8]>
        requires holds { Holds (seen M.Store F.Folder self.now) }
        ensures seen { MatchOption result (map_image (seen M.Store F.Folder self.now) ≡ None)
            (λ image. map_image (seen M.Store F.Folder self.now) ≡ Some image.now) }
        ensures image { IfSome result (λ image. IsImage Kind.Brush image.now) }
    {
        let file = self.map.as_ref()?;
        match self.table.look(&self.store, Table::Models, file)? {
            (Kind::Brush, image) => Some(image),
            _ => None,
        }
    }

    // Tells which leafs are seen from a leaf of the current map.
    pub(super) fn vis<O: Sink>(&mut self, leaf: Option<u32>, out: &mut O) -> Result<Next, Fault>
        requires holds { Holds (seen M.Store F.Folder self.old) }
        ensures { Does M.Store F.Folder O.Sink (answer_vis leaf) self.old self.new out.old out.new result }
    {
        let Some(image) = self.map_image() else {
            return put_no_map(out);
        };
        let Some(leaf) = leaf else {
            return put_bad_number(out);
        };
        put_leaf(out, image, leaf)
    }
}

// The name of a file that was to be the current map, where it is.
fn map_after(file: &GameName, answer: Result<Res, AcquireError>) -> Option<GameName>
    ensures { result ≡ map_after file.now answer }
{
    match answer {
        Ok(res) if res.kind == Kind::Brush => Some(file.copied()),
        _ => None,
    }
}

// The picture of a lump, or why there is none to show.
#[tactic(auto, using(crate::proofs::Picturing::wad_laws))]
fn picture_of(image: &[u8], name: &LumpName) -> Result<Picture, LumpError>
    requires { IsImage Kind.Wad image.now }
    ensures value { result ≡ picture_of image.now (lump_in image.now name.now) }
    ensures inside { IfOk result (λ p. pixels_end p ≤ length image.now) }
{
    match lump(image, name.bytes()) {
        Lump::Found { offset, kind, .. } => match picture(image, offset, kind) {
            Ok(picture) => Ok(picture),
            Err(PicFault::NotPicture) => Err(LumpError::NotPicture),
            Err(PicFault::Outside) => Err(LumpError::Outside),
        },
        Lump::Absent => Err(LumpError::Absent),
        Lump::Compressed => Err(LumpError::Compressed),
    }
}
