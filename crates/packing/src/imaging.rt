// The images of a bundle, each of a file of the machine. No contract says what the machine gives.
ghost use Rattle.std.specs.Prelude.{◌≡◌, true, IfErr, IfOk};
ghost use Rattle.std.specs.List.{list_all};
ghost use Rattle.serde_json.specs.View.{view};
ghost use Rattle.packing.specs.Ends.{IsBefore};
ghost use Rattle.packing.specs.Images.{are_images, are_names, is_image, names_of};
ghost use Rattle.packing.specs.PrivateImages.{image_rows, given_names};

use crate::PackFault;
use crate::finding::{bytes_of, is_file, place_in};
use crate::images::{is_among, is_image_name, read_image, words_of};
use crate::layout::{INDEX, read_layout};
use crate::refusing::{
    NAMED_TWICE, NO_FILE_OF_IMAGE, NO_IMAGE_NAME, NO_JSON, NO_LAYOUT, TOO_LARGE, refuse,
    refuse_error,
};
use plain::limits::MOST_BUNDLE_BYTES;
use plain::{Bytes, Fault, Items, Text};
use serde_json::Value;
use std::alloc::Global;
use std::fs;
use std::hash::RandomState;
use std::rt::Files;

/// The JSON of these images, each a name and its file, in their order. After `Ended` it is noted what is wrong with which file.
pub(crate) fn read_images<R: Files + AllocGlobal>(
    rt: &R,
    alloc: Global,
    keys: RandomState,
    images: &[(Text, Text)],
    notes: &mut Text,
) -> Result<Items<(Text, Value)>, PackFault>
    ensures before { IfErr result IsBefore }
    ensures names { IfOk result (λ found. names_of (image_rows found) ≡ given_names images.now) }
    ensures images { IfOk result (λ found. are_images (image_rows found) ≡ true) }
{
    check_names(alloc, images, notes)?;
    read_files(rt, alloc, keys, images, notes)
}

/// Looks whether each name is that of an image, and none is there twice.
fn check_names(alloc: Global, images: &[(Text, Text)], notes: &mut Text) -> Result<(), PackFault>
    ensures before { IfErr result IsBefore }
    ensures names { IfOk result (λ _. are_names (given_names images.now) ≡ true) }
{
    let mut left = images;
    'names: while let [image, more @ ..] = left {
        if !is_image_name(&image.0) {
            return Err(refuse(alloc, notes, image.1.as_str(), NO_IMAGE_NAME));
        }
        if is_among(&image.0, more) {
            return Err(refuse(alloc, notes, image.1.as_str(), NAMED_TWICE));
        }
        left = more;
    }
    Ok(())
}

/// The JSON of the image that each file holds.
fn read_files<R: Files + AllocGlobal>(
    rt: &R,
    alloc: Global,
    keys: RandomState,
    images: &[(Text, Text)],
    notes: &mut Text,
) -> Result<Items<(Text, Value)>, PackFault>
    ensures before { IfErr result IsBefore }
    ensures names { IfOk result (λ found. names_of (image_rows found) ≡ given_names images.now) }
    ensures images { IfOk result (λ found. list_all (λ image. is_image image.1) (image_rows found) ≡ true) }
{
    let mut found = Items::new(alloc);
    for (name, file) in images {
        let row = read_row(rt, alloc, keys, name, file, notes)?;
        found.push(row)?;
    }
    Ok(found)
}

/// An image's name, with the JSON of the image that a file holds.
fn read_row<R: Files + AllocGlobal>(
    rt: &R,
    alloc: Global,
    keys: RandomState,
    name: &Text,
    file: &Text,
    notes: &mut Text,
) -> Result<(Text, Value), PackFault>
    ensures before { IfErr result IsBefore }
    ensures name { IfOk result (λ row. row.0 ≡ name.now) }
    ensures image { IfOk result (λ row. is_image (view row.1) ≡ true) }
{
    let name = Text::from_str(alloc, name.as_str())?;
    match read_file(rt, alloc, keys, file, notes) {
        Ok(image) => Ok((name, image)),
        Err(fault) => {
            drop(name);
            Err(fault)
        }
    }
}

/// The JSON of the image that a file holds or a folder has as its layout. Either may be given by a link.
fn read_file<R: Files + AllocGlobal>(
    rt: &R,
    alloc: Global,
    keys: RandomState,
    file: &Text,
    notes: &mut Text,
) -> Result<Value, PackFault>
    ensures before { IfErr result IsBefore }
    ensures image { IfOk result (λ image. is_image (view image) ≡ true) }
{
    let place = file.as_str();
    if is_folder(rt, place) {
        return read_folder(rt, alloc, keys, place, notes);
    }
    let bytes = file_bytes(rt, alloc, place, notes)?;
    let image = image_of_bytes(alloc, keys, place, &bytes, notes);
    drop(bytes);
    image
}

/// The JSON of the image that a folder has as its layout.
fn read_folder<R: Files + AllocGlobal>(
    rt: &R,
    alloc: Global,
    keys: RandomState,
    folder: &str,
    notes: &mut Text,
) -> Result<Value, PackFault>
    ensures before { IfErr result IsBefore }
    ensures image { IfOk result (λ image. is_image (view image) ≡ true) }
{
    let index = place_in(alloc, folder, INDEX)?;
    if !is_file(rt, index.as_str()) {
        return Err(refuse(alloc, notes, folder, NO_LAYOUT));
    }
    drop(index);
    read_layout(rt, alloc, keys, folder, notes)
}

/// Whether a name leads to a folder.
fn is_folder<R: Files>(rt: &R, name: &str) -> bool {
    match fs::metadata(rt, name) {
        Ok(found) => found.is_dir(),
        Err(_) => false,
    }
}

/// The bytes of a file of an image, which may be given by a link.
pub(crate) fn file_bytes<R: Files + AllocGlobal>(
    rt: &R,
    alloc: Global,
    place: &str,
    notes: &mut Text,
) -> Result<Bytes, PackFault>
    ensures { IfErr result IsBefore }
{
    match fs::metadata(rt, place) {
        Ok(found) if !found.is_file() => Err(refuse(alloc, notes, place, NO_FILE_OF_IMAGE)),
        Ok(found) if found.len() > MOST_BUNDLE_BYTES as u64 => {
            Err(refuse(alloc, notes, place, TOO_LARGE))
        }
        Ok(_) => bytes_of(rt, alloc, place, notes),
        Err(error) => Err(refuse_error(alloc, notes, place, &error)),
    }
}

/// The JSON of the image that a file of these bytes holds.
fn image_of_bytes(
    alloc: Global,
    keys: RandomState,
    place: &str,
    bytes: &Bytes,
    notes: &mut Text,
) -> Result<Value, PackFault>
    ensures before { IfErr result IsBefore }
    ensures image { IfOk result (λ image. is_image (view image) ≡ true) }
{
    match str::from_utf8(bytes.as_slice()) {
        Ok(text) => match read_image(alloc, keys, text) {
            Ok(image) => Ok(image),
            Err(Fault::Memory) => Err(PackFault::Memory),
            Err(Fault::Because(_)) => match words_of(alloc, text) {
                Ok(words) => Err(refuse(alloc, notes, place, words)),
                Err(_) => Err(PackFault::Memory),
            },
        },
        Err(_) => Err(refuse(alloc, notes, place, NO_JSON)),
    }
}
