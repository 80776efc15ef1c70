// What is asked of a trace.

// The code of the stamp of the page, or none for the newest with a final page; and whether the recorder is closed behind the
// trace's last record.
#[derive(Clone, Copy, Debug)]
pub struct Request {
    pub stamp: Option<u64>,
    pub closed: bool,
}
