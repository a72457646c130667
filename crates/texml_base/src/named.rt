// The files of a folder in memory, by name.
ghost use Rattle.std.specs.Prelude.{◌≡◌, MatchOption, None, Some};
ghost use Rattle.texml_base.specs.Named.{look_up};

#[derive(Drop)]
pub struct NamedFile {
    pub name: String,
    pub bytes: Vec<u8>,
}

// The bytes of the first file of this name.
pub fn find_named<'a>(named: &'a [NamedFile], name: &str) -> Option<&'a [u8]>
    ensures { MatchOption result (look_up named.now name.now ≡ None) (λ bytes. look_up named.now name.now ≡ Some bytes.now) }
{
    for file in named {
        if file.name.as_str() == name {
            return Some(file.bytes.as_slice());
        }
    }
    None
}
