ghost use Rattle.std.specs.Prelude.{◌≡◌, ◌⊎◌, [], ◌∷◌, true, codes, option_map, IfOk, IfSome};
ghost use Rattle.std.specs.FinMap.{entries};
ghost use Rattle.trees.specs.TreeMap.{empty_tree, file_meta, directory_meta};
ghost use Rattle.trees.specs.Put.{put_into};
ghost use Rattle.trees.specs.Cause.{ChangesTree};
ghost use Rattle.trees.specs.declared.entry.Entry.TheVariants.{Directory, File};
ghost use Rattle.serde_json.specs.Data.{object};
ghost use Rattle.serde_json.specs.Read.{read};
ghost use Rattle.serde_json.specs.View.{members_view};
ghost use Rattle.packing.specs.Images.{are_images};
ghost use Rattle.packing.specs.Leaving.{ignore_path};
ghost use Rattle.packing.specs.Packed.{bundle_of, dockerfile_of, given_with, packed_of, put_images};
ghost use Rattle.packing.specs.PrivateImages.{image_rows};
ghost use Rattle.packing.specs.PrivatePacked.{IsTextOf, beside, beside_among, beside_of};
ghost use Rattle.packing.specs.Asked.{asked_of};

use crate::PackOptions;
use crate::leaving::IGNORE_FILE;
use crate::members::{members_beside, put_images};
use paths::Path;
use plain::{Bytes, Items, Memory, Text};
use serde_json::{Map, Value};
use std::alloc::Global;
use std::marker::Model;
use trees::{Content, Entry, LentEntry, Meta, Tree, TreeFault};

/// The name of the file that a bundle's Dockerfile is.
pub(crate) const DOCKERFILE: &str = "Dockerfile";

/// What a folder holds: files, 0644, and directories, 0755, all of 0:0. Contracts see the tree.
#[derive(Drop)]
pub(crate) struct Folder {
    tree: Tree,
    /// The places of what was passed over.
    passed: String,
}

impl Model for Folder {
    ghost use Rattle.trees.specs.TreeMap.{TreeMap};
    ghost use Rattle.packing.specs.Packed.{IsPlain, folder_code};

    ghost Value = { TreeMap };

    ghost coded = { folder_code };

    ghost view = { λ folder. folder.tree };

    ghost invariant = { λ folder. IsPlain folder.tree };
}

impl Folder {
    /// The empty folder. It takes no memory.
    pub(crate) fn new(alloc: Global) -> Folder
        ensures { result ≡ empty_tree }
    {
        Folder {
            tree: Tree::empty(alloc),
            passed: String::new(alloc),
        }
    }

    /// Notes that what is at this place is passed over.
    pub(crate) fn pass_over(&mut self, place: &str) -> Result<(), Memory>
        ensures { self.new ≡ self.old }
    {
        if !self.passed.is_empty() {
            self.passed.push_str(", ")?;
        }
        self.passed.push_str(place)?;
        Ok(())
    }

    /// A warning that names all that was passed over, with its LF; the empty text where nothing was.
    pub(crate) fn warning(&self, alloc: Global) -> Result<Text, Memory> {
        if self.passed.is_empty() {
            return Ok(Text::from_string(String::new(alloc)));
        }
        let passed = self.passed.as_str();
        let line = format!(in alloc;
            "warning: passed over, since neither a file nor a folder: {passed}\n"
        )?;
        Ok(Text::from_string(line))
    }

    /// Puts a file of these bytes at a path, as `Tree::put` does.
    pub(crate) fn add_file(
        &mut self,
        alloc: Global,
        path: &Path,
        bytes: Bytes,
    ) -> Result<(), TreeFault>
        ensures { ChangesTree (put_into self.old path.now (File file_meta bytes)) self.old self.new result }
    {
        let entry = Entry::File(Meta::file(), Content::new(alloc, bytes)?);
        self.tree.put(alloc, path, entry)
    }

    /// Puts the folder's ignore file, of these bytes, as `Tree::put` does.
    pub(crate) fn add_ignore_file(&mut self, alloc: Global, bytes: Bytes) -> Result<(), TreeFault>
        ensures { ChangesTree (put_into self.old ignore_path (File file_meta bytes)) self.old self.new result }
    {
        let path = path_at_root(alloc, IGNORE_FILE)?;
        self.add_file(alloc, &path, bytes)
    }

    /// Puts a directory at a path, as `Tree::put` does.
    pub(crate) fn add_directory(&mut self, alloc: Global, path: &Path) -> Result<(), TreeFault>
        ensures { ChangesTree (put_into self.old path.now (Directory directory_meta)) self.old self.new result }
    {
        self.tree
            .put(alloc, path, Entry::Directory(Meta::directory()))
    }

    /// The text of the bundle of the folder, without the LF that ends it; `None` where no file is named and it has no file `/Dockerfile`. The
    /// folder is let go before the text is made, since all its bytes stand in the JSON too.
    pub(crate) fn bundle(
        self,
        alloc: Global,
        file: Option<Bytes>,
        images: Items<(Text, Value)>,
        options: PackOptions<'_>,
    ) -> Result<Option<Text>, Memory>
        requires images { are_images (image_rows images) ≡ true }
        ensures is { IfOk result (λ text. text ≡ packed_of self file (given_with (asked_of options.entry) (image_rows images))) }
        ensures reads { IfOk result (λ found. IfSome found (λ text. read text ≡ bundle_of self file (given_with (asked_of options.entry) (image_rows images)))) }
    {
        let made = self.members_beside(alloc, &file, options);
        drop(self);
        drop(file);
        match made? {
            Some(members) => Ok(Some(text_with(alloc, members, images)?)),
            None => {
                drop(images);
                Ok(None)
            }
        }
    }

    /// The members of the bundle of the folder beside its images; `None` where it has no Dockerfile.
    fn members_beside(
        &self,
        alloc: Global,
        file: &Option<Bytes>,
        options: PackOptions<'_>,
    ) -> Result<Option<Map<String, Value>>, Memory>
        ensures { IfOk result (λ found. option_map (λ members. members_view members.entries) found ≡ beside_among self.now file.now (asked_of options.entry)) }
    {
        match file {
            Some(bytes) => {
                let members = tree_members(alloc, &self.tree, bytes.as_slice(), options)?;
                Ok(Some(members))
            }
            None => self.own_members(alloc, options),
        }
    }

    /// The same with the folder's own Dockerfile.
    fn own_members(
        &self,
        alloc: Global,
        options: PackOptions<'_>,
    ) -> Result<Option<Map<String, Value>>, Memory>
        ensures { IfOk result (λ found. option_map (λ members. members_view members.entries) found ≡ beside_of self.now (dockerfile_of self.now) (asked_of options.entry)) }
    {
        let path = path_at_root(alloc, DOCKERFILE)?;
        match self.tree.get(&path) {
            Some(LentEntry::File(_, content)) => {
                let members = tree_members(alloc, &self.tree, content.as_slice(), options)?;
                Ok(Some(members))
            }
            Some(LentEntry::Directory(_)) => Ok(None),
            None => Ok(None),
        }
    }
}

/// The path of what has this name in a folder, the Dockerfile or the ignore file.
fn path_at_root(alloc: Global, name: &str) -> Result<Path, Memory>
    requires { (name.now ≡ codes "Dockerfile") ⊎ (name.now ≡ codes ".dockerignore") }
    ensures { IfOk result (λ path. path ≡ name.now ∷ []) }
{
    let name = Text::from_str(alloc, name)?;
    Path::root(alloc).child(alloc, &name)
}

/// The members of the bundle of a tree with this Dockerfile, beside its images.
fn tree_members(
    alloc: Global,
    tree: &Tree,
    dockerfile: &[u8],
    options: PackOptions<'_>,
) -> Result<Map<String, Value>, Memory>
    ensures { IfOk result (λ members. members_view members.entries ≡ beside (entries tree.now) dockerfile.now (asked_of options.entry)) }
{
    let rows = tree.entries(alloc)?;
    let members = members_beside(alloc, rows.as_slice(), dockerfile, options)?;
    Ok(members)
}

/// The text of a bundle of these members and these images.
fn text_with(
    alloc: Global,
    members: Map<String, Value>,
    images: Items<(Text, Value)>,
) -> Result<Text, Memory>
    ensures { IfOk result (IsTextOf (object (put_images (image_rows images) (members_view members.entries)))) }
{
    let mut members = members;
    put_images(alloc, &mut members, images)?;
    let value = Value::Object(members);
    let text = value.to_string(alloc)?;
    Ok(Text::from_string(text))
}
