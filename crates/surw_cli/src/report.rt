use crate::status::Status;

/// What a job prints, the status that it ends with, and the file that it saves.
#[derive(Debug, Drop)]
pub(crate) struct Report {
    /// The status.
    pub status: Status,
    /// The text.
    pub text: Vec<u8>,
    /// The file that is saved before the text is printed, if one is.
    pub saved: Option<SavedFile>,
}

/// A file that is to be saved.
#[derive(Debug, Drop)]
pub(crate) struct SavedFile {
    /// Its name.
    pub name: String,
    /// Its bytes.
    pub text: Vec<u8>,
}
