//! Laws of containers and ciphers, over their definitions alone. A law is a function that does
//! nothing: its clause is what is proved.

ghost use Rattle.t1_bytes.specs.Laws.{ReadsAsSpelled, UndoEachOther, OneCipher, OpensSealed, OneFlatText, FlattensWritten, OneSplit, LacksEverywhere};
ghost use Rattle.t1_bytes.specs.Laws.{ReadsFlat, ReadsSplit, ReadsHexLines, ReadsBinary};

/// What is read of segments and of a flat text is what is spelled, and vice versa.
pub fn reads_as_spelled()
    ensures { ReadsAsSpelled }
{}

/// Encryption and decryption under one key undo each other.
pub fn undo_each_other()
    ensures { UndoEachOther }
{}

/// Plain bytes have one cipher under a key, and a cipher has one plain text.
pub fn one_cipher()
    ensures { OneCipher }
{}

/// A text that was encrypted after lead bytes of zero is recovered by decrypting it and dropping these bytes.
pub fn opens_sealed()
    ensures { OpensSealed }
{}

/// A file is flattened to its flat text, and refused exactly at the place where it is bad.
pub fn reads_flat()
    ensures { ReadsFlat }
{}

/// A flat text is split as its marker and its cipher say, and refused exactly for want of one of them.
pub fn reads_split()
    ensures { ReadsSplit }
{}

/// Each file has exactly one flat text or exactly one place where it is bad, and never both.
pub fn one_flat_text()
    ensures { OneFlatText }
{}

/// What is written in segments is recovered as the flat text.
pub fn flattens_written()
    ensures { FlattensWritten }
{}

/// Each flat text is split in exactly one way or refused for exactly one reason, and never both.
pub fn one_split()
    ensures { OneSplit }
{}

/// A flat text is refused for want of `eexec` if no offset has the marker, and only then.
pub fn lacks_everywhere()
    ensures { LacksEverywhere }
{}

/// Hexadecimal lines before the trailer are read as the cipher that they were written from.
pub fn reads_hex_lines()
    ensures { ReadsHexLines }
{}

/// A binary cipher is read as it stands.
pub fn reads_binary()
    ensures { ReadsBinary }
{}
