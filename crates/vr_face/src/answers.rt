use vr_base::Reply;

/// The methods that a route has.
#[derive(Clone, Copy, Debug, PartialEq, Eq)]
pub enum Methods {
    GetPutPost,
    Post,
    Get,
}

/// What a request is answered.
#[derive(Debug, Drop)]
pub enum Answer {
    Replied(Reply),
    NoRoute,
    /// The route has other methods.
    BadMethod(Methods),
}
