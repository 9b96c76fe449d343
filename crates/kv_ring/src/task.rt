use kv_base::{Reply, Request, ReservedList};

/// A request and its reply, once it has one.
#[derive(Debug, Drop)]
pub struct Task {
    /// What is asked.
    pub request: Request,
    /// What is answered; `None` while it is on its way.
    pub reply: Option<Reply>,
}

/// Tasks in the order of their requests.
pub type Tasks = ReservedList<Task>;
