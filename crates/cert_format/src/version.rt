/// The versions of a certificate's text that are read: version 1 names all multipliers of a leaf, versions 2 and 3 those
/// that the leaf before has otherwise. Version 3 is that of certificates with cuts.
#[derive(Clone, Copy)]
pub enum Version {
    One,
    Two,
    Three,
}
