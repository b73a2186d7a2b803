use crate::page::{Unit, push_head, push_value};
use std::alloc::{AllocError, Global};

// Bytes of a page of memory. The server runs on x86-64 only.
const PAGE_BYTES: u64 = 4096;

// Linux shows every program this number of clock ticks in a second.
const TICKS: u64 = 100;

// Fields of /proc/self/stat, by their index from the state, which follows the program's name.
#[derive(Clone, Copy)]
enum Stat {
    UserTime = 11,
    SystemTime = 12,
    StartTime = 19,
    VirtualBytes = 20,
    ResidentPages = 21,
}

// Names, types, help texts and units. The names are those of Prometheus' client libraries.
const ROWS: [(&str, &str, &str, Unit); 6] = [
    (
        "process_cpu_seconds_total",
        "counter",
        "Processor time of the process, in seconds.",
        Unit::Hundredth,
    ),
    (
        "process_resident_memory_bytes",
        "gauge",
        "Resident memory of the process.",
        Unit::One,
    ),
    (
        "process_virtual_memory_bytes",
        "gauge",
        "Virtual memory of the process.",
        Unit::One,
    ),
    (
        "process_open_fds",
        "gauge",
        "Open file descriptors.",
        Unit::One,
    ),
    (
        "process_max_fds",
        "gauge",
        "Limit of open file descriptors.",
        Unit::One,
    ),
    (
        "process_start_time_seconds",
        "gauge",
        "Start of the process, in seconds since 1970.",
        Unit::Hundredth,
    ),
];

/// The texts of files in /proc, or empty texts for files that cannot be read.
#[derive(Clone, Copy)]
pub struct ProcessTexts<'a> {
    /// `/proc/self/stat`.
    pub process: &'a str,
    /// `/proc/self/limits`.
    pub limits: &'a str,
    /// `/proc/stat`.
    pub system: &'a str,
}

/// The metrics of this process, as far as they are known.
#[derive(Clone, Copy, Debug, PartialEq, Eq)]
pub struct ProcessValues {
    /// In hundredths of a second.
    pub processor_time: Option<u64>,
    pub resident_bytes: Option<u64>,
    pub virtual_bytes: Option<u64>,
    pub open_files: Option<u64>,
    pub max_files: Option<u64>,
    /// In hundredths of a second since 1970.
    pub start_time: Option<u64>,
}

impl ProcessValues {
    /// Parses the values in `texts`. A value that is missing or out of range is unknown.
    ///
    /// Linux's manual page proc(5).
    pub fn of(texts: ProcessTexts<'_>, open_files: Option<u64>) -> ProcessValues {
        let process = texts.process;
        ProcessValues {
            processor_time: sum_of(
                field(process, Stat::UserTime),
                field(process, Stat::SystemTime),
            ),
            resident_bytes: product_of(field(process, Stat::ResidentPages), PAGE_BYTES),
            virtual_bytes: field(process, Stat::VirtualBytes),
            open_files,
            max_files: number_after(texts.limits, "Max open files "),
            start_time: sum_of(
                product_of(number_after(texts.system, "btime "), TICKS),
                field(process, Stat::StartTime),
            ),
        }
    }

    /// Appends a row for each known value, with its `# HELP` and `# TYPE` lines.
    pub(crate) fn push_rows(&self, alloc: Global, page: &mut String) -> Result<(), AllocError> {
        let values = [
            self.processor_time,
            self.resident_bytes,
            self.virtual_bytes,
            self.open_files,
            self.max_files,
            self.start_time,
        ];
        for ((name, type_name, help, unit), value) in ROWS.iter().zip(values) {
            if let Some(value) = value {
                push_head(alloc, page, name, type_name, help)?;
                push_value(alloc, page, name, value, *unit)?;
            }
        }
        Ok(())
    }
}

// The program's name is in parentheses, and may itself have spaces and parentheses.
fn field(process: &str, wanted: Stat) -> Option<u64> {
    let (_, fields) = process.rsplit_once(')')?;
    let number = fields.split_ascii_whitespace().nth(wanted as usize)?;
    number.parse().ok()
}

// Returns the first number after `name` in the first line that begins with `name`.
fn number_after(text: &str, name: &str) -> Option<u64> {
    for line in text.lines() {
        if let Some(rest) = line.strip_prefix(name) {
            return rest.split_ascii_whitespace().next()?.parse().ok();
        }
    }
    None
}

fn sum_of(one: Option<u64>, other: Option<u64>) -> Option<u64> {
    one?.checked_add(other?)
}

fn product_of(number: Option<u64>, factor: u64) -> Option<u64> {
    number?.checked_mul(factor)
}
