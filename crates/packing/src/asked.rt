use plain::Text;

/// What a folder is packed with, beside what lies in it, lent.
#[derive(Clone, Copy, Debug)]
pub struct PackOptions<'a> {
    /// The Dockerfile, where it isn't the folder's file `Dockerfile`.
    pub file: Option<&'a str>,
    /// The images, each a name and the file that holds it.
    pub images: &'a [(Text, Text)],
    /// The bundle's target.
    pub target: Option<&'a str>,
    /// The build arguments, each a name and a value. Of a name twice the last counts.
    pub args: &'a [(Text, Text)],
    /// Whether what the ignore file leaves out isn't packed.
    pub apply_ignore: bool,
    /// Whether files are packed without their bytes, but the ignore file and the folder's `Dockerfile` where that is the bundle's.
    pub names: bool,
    /// Whether what is kept and is neither a file nor a folder, as a link, is passed over and doesn't end packing.
    pub pass: bool,
}
