//! What `trace_player --help` writes.

/// How it is called.
pub const USAGE: &str = "usage: trace_player [--time] [--svg FILE] LIMIT.. < TRACE";

/// Its lines.
pub const HELP: [&str; 10] = [
    "trace_player plays a trace of requests through a cache under each limit, and tells how often it had what was asked for.",
    USAGE,
    "  LIMIT         the most bytes that the cache may have: 512, 64K, 1M or 1G, and so on, where 1K is 1024; at least 1",
    "  --time        tells the milliseconds, of each limit or of the one pass for all",
    "  --svg FILE    also draws the shares of hits into this file; - stands for the standard output",
    "  --help, -h    writes this text",
    "A line of the trace is KEY SIZE or TIME KEY SIZE: words between blanks, numbers for key and size; the time is read past.",
    "Or its first line is a header with commas, such as time,key,size, and each line behind that is TIME,KEY,SIZE.",
    "Example: printf '1 300\\n2 500\\n1 300\\n' | trace_player 512 1K",
    "It writes a row for each limit: the shares of hits and of their bytes in percent, and the objects evicted.",
];
