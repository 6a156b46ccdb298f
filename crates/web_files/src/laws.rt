//! What the pieces of a file are, over whole runs.
ghost use Rattle.web_files.specs.Pieces.{SendsAFront, SendsAll};

/// The pieces that `FilePieces` gives of a reader whose bytes are known. As far as they came they
/// are a front of these bytes, and no longer than was stated. Where the end comes after them, they
/// are as many bytes as were stated, from the first on.
pub fn file_bytes_law()
    ensures front { SendsAFront }
    ensures all { SendsAll }
{}
