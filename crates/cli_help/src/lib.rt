//! The texts of help. Lines have 80 columns at most, since the kit's clap doesn't wrap them.
#![tactic(auto)]

/// What help says of an argument: on one screen, and in all of the help.
#[derive(Clone, Copy)]
pub struct Help {
    /// A few words, which `-h` prints.
    pub brief: &'static str,
    /// What `--help` prints.
    pub full: &'static str,
}

/// What the program does.
pub const PROGRAM: &str =
    "Runs KCSAN, the kernel's sanitizer for data races, over small C programs";

/// What `step` does.
pub const STEP: &str = "Executes a program once, under a schedule";

/// What `run` does.
pub const RUN: &str = "Runs a program on threads, one a task, as often as asked";

/// What `search` does.
pub const SEARCH: &str = "Covers all schedules, or those with few switches between tasks";

/// What `join` does.
pub const JOIN: &str = "Joins the parts of a search, and prints what it finds";

/// What `races` does.
pub const RACES: &str = "Says which accesses race, whether KCSAN can report it, or why not";

/// What `replay` does.
pub const REPLAY: &str = "Says whether a trace is true";

/// What `show` does.
pub const SHOW: &str = "Draws a trace";

/// What `check` does.
pub const CHECK: &str = "Says what litmus files mean to the program, or why they are refused";

/// What all of the help says behind the commands.
pub const AFTER_PROGRAM: &str = "\
    A litmus file has small C functions that run concurrently, one task each, and a\n\
    condition on what registers and variables hold once they have ended. This one\n\
    is race.litmus:\n\
    \n\
    \x20\x20\x20\x20C race\n\
    \x20\x20\x20\x20{}\n\
    \x20\x20\x20\x20P0(int *x) { int r0; r0 = *x; }\n\
    \x20\x20\x20\x20P1(int *x) { *x = 1; }\n\
    \x20\x20\x20\x20exists (0:r0=1)\n\
    \n\
    In this run the plain read of P0 sets up a watchpoint, which the plain write of\n\
    P1 hits while P0 waits. The report of the race is printed:\n\
    \n\
    \x20\x20\x20\x20kcsan_litmus step race.litmus --schedule 0x7,1x9\n\
    \n\
    After the reports come a line that counts what became of the checks, and one\n\
    that says whether the condition held: its proposition, whatever the quantifier.\n\
    'kcsan_litmus step --help' says what a schedule is.\n\
    \n\
    'kcsan_litmus races race.litmus' says of each pair of accesses whether it\n\
    races, in any schedule, and whether KCSAN can report that.\n\
    \n\
    It is a model of KCSAN's runtime: tasks interleave, memory is sequentially\n\
    consistent, and no compiler or processor reorders accesses, so barriers change\n\
    nothing.";

/// What it says behind the options of `step`.
pub const AFTER_STEP: &str = "\
    A schedule says which task makes how many steps: entries TxC joined by commas,\n\
    where task T makes C steps. A step is one atomic operation on one shared word:\n\
    a watchpoint's, 8 bytes of memory, a lock or the clock. Steps of a task that\n\
    has ended are skipped. After the schedule the tasks take one step each in turn,\n\
    from task 0, until all have ended; without one they do so from the start. For\n\
    example\n\
    \n\
    \x20\x20\x20\x20kcsan_litmus step race.litmus --schedule 0x7,1x9\n\
    \n\
    lets P0 make seven steps, after which the watchpoint of its first access is set\n\
    up, then P1 nine, and then both in turn.\n\
    \n\
    A place list gives the addresses of variables: items NAME=ADDRESS joined by\n\
    commas, without blanks. An address is decimal, or 0x and hexadecimal digits; it\n\
    is a multiple of the variable's size, and 2^62 at most. Variables that aren't\n\
    placed are at 0x10000, 0x10040, 0x10080 and so on, in the order in which the\n\
    file first names them. For example, where the first variable is an int x and\n\
    another a char c,\n\
    \n\
    \x20\x20\x20\x20kcsan_litmus step bytes.litmus --place c=0x10001 --schedule 0x7,1x9\n\
    \n\
    puts c on the second byte of x, so that accesses to the two can race.\n\
    \n\
    The counters: arms, watchpoints that were set up, each of which ends as quiet\n\
    (no access took it) or taken; lost, found but gone before they could be taken;\n\
    two-sided and unknown, reports of two accesses and of unknown origin; encoding,\n\
    same and masked, takings without a report, since the accesses share no byte,\n\
    the value stayed as it was, or the mask hides the change; capacity, accesses\n\
    that found no free index; unencodable, those that no watch word can say;\n\
    unbalanced, calls of KCSAN and unlocks that had nothing to end.\n\
    \n\
    Exit status: 0 no report; 2 a report; 64 usage, a schedule or a place list that\n\
    is malformed or doesn't suit the file; 65 the file is refused; 66 it can't be\n\
    read; 70 a task is stuck; 71 out of memory; 74 output can't be written. From 64\n\
    on standard error says why, and up to 71 nothing goes to standard output or to\n\
    the trace's file. That there is no report doesn't say that there is no race:\n\
    'kcsan_litmus races' says that.";

/// What it says behind those of `replay`.
pub const AFTER_REPLAY: &str = "\
    A trace is what 'kcsan_litmus step --trace PATH' writes: the accesses of a run,\n\
    the watchpoints that they set up and hit, and the races that were reported.\n\
    Each race in an accepted trace is one of two accesses that are in it: of two\n\
    tasks, with a byte in common, in progress at one moment, not both marked. For\n\
    example\n\
    \n\
    \x20\x20\x20\x20kcsan_litmus step race.litmus --schedule 0x7,1x9 --trace race.trace\n\
    \x20\x20\x20\x20kcsan_litmus replay race.trace\n\
    \n\
    Exit status: 0 the trace is accepted; 64 usage; 65 it is refused, and standard\n\
    error names the first line that fails; 66 it can't be read; 71 out of memory;\n\
    74 output can't be written.";

/// What it says behind those of `run`.
pub const AFTER_RUN: &str = "\
    Each task runs on a thread of its own, and all of them share the memory and the\n\
    watchpoints. A task that has set up a watchpoint waits for the delay, in which\n\
    others may hit it. Each run begins anew, with the same settings; those that may\n\
    set up a watchpoint start first in turn. Which races show in a run is left to\n\
    the machine. For example\n\
    \n\
    \x20\x20\x20\x20kcsan_litmus run race.litmus --runs 1000\n\
    \n\
    runs the two tasks a thousand times. Each distinct report is printed once, in\n\
    the order in which they were first seen, with how often it was seen; then what\n\
    became of the checks of all runs, and in how many of the runs the condition\n\
    held. While the runs go on, a line on standard error counts them, where that is\n\
    a terminal. A trace is that of the last run.\n\
    \n\
    A run in which a task gets stuck has no end, and ends all with status 70; with\n\
    --keep-going it is only counted, in a last line. Threads wait their turn, so a\n\
    long delay together with few --turns makes tasks seem stuck that only wait.\n\
    \n\
    'kcsan_litmus step --help' says what a place list is.\n\
    \n\
    Exit status: 0 no report; 2 a report; 64 usage, or a place list that is\n\
    malformed or doesn't suit the file; 65 the file is refused; 66 it can't be\n\
    read; 70 a task is stuck; 71 out of memory, or a thread couldn't be started; 74\n\
    output can't be written. From 64 on standard error says why, and up to 71\n\
    nothing goes to standard output or to the trace's file.";

/// What it says behind those of `search`.
pub const AFTER_SEARCH: &str = "\
    A schedule has a switch (a preemption) wherever a step of one task follows one\n\
    of another, except where that other has ended by it, or only tried and failed,\n\
    as for a lock that was not free. The program is executed under every schedule\n\
    with at most so many switches, each from the start, with the same settings; and\n\
    no task tries again in vain before another has done something. Each further\n\
    switch multiplies the schedules. They are counted, and not executed one by one:\n\
    a node, that is a state with what bounds the schedules from there, is searched\n\
    once.\n\
    \n\
    With --switches all there is no such bound. Then what follows a state is\n\
    executed once, though many schedules lead to it: states are counted, and no\n\
    schedules. For example\n\
    \n\
    \x20\x20\x20\x20kcsan_litmus search race.litmus\n\
    \n\
    finds the race of race.litmus without being told a schedule,\n\
    \n\
    \x20\x20\x20\x20kcsan_litmus search race.litmus --switches all --limit 1000\n\
    \n\
    covers all schedules, and stops after a thousand states if others remain, and\n\
    \n\
    \x20\x20\x20\x20kcsan_litmus search race.litmus --switches 1 --trace race.trace\n\
    \n\
    keeps the trace of the first schedule that gives the first report; where there\n\
    is no report, no file is written.\n\
    \n\
    As text, with several files each output comes under a line with the file's\n\
    name, and a last line counts the files. A file - is standard input, and @LIST\n\
    stands for the files that LIST names, one a line. --trace goes with one file\n\
    and --format text.\n\
    \n\
    With --part I/N part I of N of the search is searched alone, and a line of JSON\n\
    is written for 'kcsan_litmus join', which prints of all N parts what the search\n\
    prints. That goes with one file and a number of --switches, and not with\n\
    --trace, --where or --settings.\n\
    \n\
    Each distinct report is printed once, in the order in which they were first\n\
    seen, with how many schedules give it, and the first of them: under it, with\n\
    the same options, so does 'kcsan_litmus step', unless it ends in a deadlock.\n\
    Where no task can go on and not all have ended, a line says in how many\n\
    schedules. Where the search was stopped, these two have no number. Then come\n\
    the number of schedules or states, whether others remain, what the registers\n\
    and variables of the condition hold where all tasks have ended, as herd7 writes\n\
    it, with the number of schedules that end so, or with 1, and in how many of\n\
    these the proposition holds. While the search goes on, a line on standard error\n\
    counts nodes or states, where that is a terminal.\n\
    \n\
    'kcsan_litmus step --help' says what a schedule and a place list are.\n\
    \n\
    Exit status: 0 no report under any of these schedules; 2 a report; 64 usage, or\n\
    a place list that is malformed or doesn't suit the file; 65 the file is\n\
    refused; 66 it can't be read; 71 out of memory; 74 output can't be written; 75\n\
    no report, but the search stopped at --limit or --seconds. From 64 to 74\n\
    standard error says why, and up to 71 nothing goes to standard output or to the\n\
    trace's file, but that at 64 to 66 the output of several files is printed, or\n\
    of one with --format json or csv.";

/// What it says behind those of `join`.
pub const AFTER_JOIN: &str = "\
    A file has what 'kcsan_litmus search --part I/N' writes of part I of N of a\n\
    search. All parts of one search are needed, each once, in any order. What the\n\
    search prints as text without --part is printed then, if neither it nor a part\n\
    is stopped, at --limit or --seconds. For example\n\
    \n\
    \x20\x20\x20\x20kcsan_litmus search race.litmus --part 1/2 > first.part\n\
    \x20\x20\x20\x20kcsan_litmus search race.litmus --part 2/2 > second.part\n\
    \x20\x20\x20\x20kcsan_litmus join first.part second.part\n\
    \n\
    prints what 'kcsan_litmus search race.litmus' prints. The parts can be searched\n\
    at the same time, also by other machines. They have the text of the litmus\n\
    file, which isn't read again.\n\
    \n\
    Where a part was stopped, so is the search, and what is printed is of the\n\
    schedules that were searched. Files that don't have the parts of one search are\n\
    refused: where a part is missing or there twice, or is one of another text or\n\
    of other settings.\n\
    \n\
    A file - is standard input, and @LIST stands for the files that LIST names, one\n\
    a line.\n\
    \n\
    Exit status: 0 no report; 2 a report; 64 usage; 65 a file has no part, or the\n\
    files don't have the parts of one search; 66 a file can't be read; 71 out of\n\
    memory; 74 output can't be written; 75 no report, but a part was stopped. From\n\
    64 to 74 standard error says why, and up to 71 nothing goes to standard output.";

/// What it says behind those of `races`.
pub const AFTER_RACES: &str = "\
    Two accesses of different tasks conflict where they have a byte in common, and\n\
    one of them writes or asserts that no other access is there. Of each such pair\n\
    a verdict says what the executions of the program show: reported, KCSAN reports\n\
    the two; missed, they race, and KCSAN reports them in no execution; no race,\n\
    they are in progress at one moment, and never race; or apart, they never are in\n\
    progress at one moment. Reasons say why two never race or are never reported:\n\
    that both count as marked, or that the value was the same wherever a watchpoint\n\
    was hit, and so on. A verdict is on the program under these settings.\n\
    \n\
    For this all states of the program are visited, first without watchpoints, and\n\
    then with them if schedules with few switches don't report each race. Where the\n\
    search of a file is stopped at --limit or --seconds, pairs may have no verdict\n\
    yet. While it goes on, a line on standard error counts, where that is a\n\
    terminal. For example\n\
    \n\
    \x20\x20\x20\x20kcsan_litmus races race.litmus\n\
    \n\
    says that the two accesses of race.litmus race, with a schedule under which\n\
    'kcsan_litmus step' reports them, and\n\
    \n\
    \x20\x20\x20\x20kcsan_litmus races --format json first.litmus second.litmus\n\
    \n\
    writes one line of JSON for each file. As text, with several files each has its\n\
    pairs under its name, and the last line counts the files. Files that are\n\
    refused or can't be read are skipped, and standard error says so of each.\n\
    \n\
    \x20\x20\x20\x20kcsan_litmus races --html races.html first.litmus second.litmus\n\
    \n\
    also writes a page for a browser: a table of the files, and of each its text,\n\
    in which its sites are marked, its pairs, and of each pair that races a picture\n\
    of an execution that shows it. One thread then looks for the races of all\n\
    files. The path of the page may not be that of a file that is read.\n\
    \n\
    'kcsan_litmus step --help' says what a schedule and a place list are.\n\
    \n\
    Exit status: 0 no race in any file; 2 a race, reported or missed; 64 usage, or\n\
    a place list that is malformed or doesn't suit a file; 65 a file is refused; 66\n\
    a file can't be read; 71 out of memory; 74 output can't be written; 75 no race\n\
    was found, and the search was stopped at --limit or --seconds. Of several files\n\
    the greatest status counts. From 64 to 74 standard error says why, and up to 71\n\
    nothing goes to standard output, but that with several files the pairs of those\n\
    that are read do where others are refused or can't be read. The page is written\n\
    then too.";

/// What it says behind those of `show`.
pub const AFTER_SHOW: &str = "\
    A trace is what 'kcsan_litmus step --trace PATH' writes; one that 'kcsan_litmus\n\
    replay' does not accept is not drawn. A task has a column and a stamp a line,\n\
    time downwards: where an access begins, a bar while it is in progress, and\n\
    where it ends. A race is a line from one side to the other, at a stamp at which\n\
    both are in progress. Under the accesses are the watchpoints that were set up,\n\
    with what became of each, and those that were taken. For example\n\
    \n\
    \x20\x20\x20\x20kcsan_litmus step race.litmus --schedule 0x7,1x9 --trace race.trace\n\
    \x20\x20\x20\x20kcsan_litmus show race.trace --svg race.svg\n\
    \n\
    draws the race of race.litmus, and writes the same as a picture to race.svg.\n\
    Lines are drawn with | + - = alone unless LC_ALL, or else LC_CTYPE, or else\n\
    LANG, names UTF-8.\n\
    \n\
    A file of --source whose program can't have made the accesses of the trace is\n\
    refused: one where a site is missing, has another kind of access or another\n\
    size, or two sites with the same variable have different addresses.\n\
    \n\
    Exit status: 0 the trace is drawn; 64 usage; 65 it is refused, or has more than\n\
    10000 accesses (limit: picture), or the file of --source is refused; 66 one of\n\
    them can't be read; 71 out of memory; 74 output can't be written. From 64 on\n\
    standard error says why, and up to 71 nothing goes to standard output or to the\n\
    picture's file.";

/// What it says behind those of `check`.
pub const AFTER_CHECK: &str = "\
    Nothing is executed. Of a file that is read, tables say of each access where it\n\
    is in the file, what it does, by what it counts as marked, its address, its\n\
    size, its watch word, and at which indices it looks for watchpoints; of each\n\
    variable its type, its address and its initial value; and how much the file\n\
    uses of what is limited. Of a file that is refused, standard error says what\n\
    'kcsan_litmus step' says of it, and then where, by line and column, and why,\n\
    with a mark under the place and with what was expected there. For example\n\
    \n\
    \x20\x20\x20\x20kcsan_litmus check race.litmus\n\
    \n\
    says that the two accesses of race.litmus are on the same four bytes,\n\
    \n\
    \x20\x20\x20\x20kcsan_litmus check --print first.litmus second.litmus\n\
    \n\
    also prints each program as it is read; with several files each has its tables\n\
    under its name, those that are refused are skipped, and the last line says how\n\
    many are read; and\n\
    \n\
    \x20\x20\x20\x20kcsan_litmus check --calls\n\
    \n\
    lists the calls that are read in litmus files.\n\
    \n\
    'kcsan_litmus step --help' says what a schedule and a place list are. Where one\n\
    is malformed, a second line on standard error says which of its items is.\n\
    \n\
    Exit status: 0 each file is read; 64 usage, or a schedule or a place list that\n\
    is malformed or doesn't suit a file; 65 a file is refused; 66 a file can't be\n\
    read; 71 out of memory; 74 output can't be written. Of several files the\n\
    greatest status counts. From 64 on standard error says why, and up to 71\n\
    nothing goes to standard output, but that with several files the tables of\n\
    those that are read do where others are refused or can't be read.";

/// What `FILE` is, where there is one.
pub const FILE: Help = Help {
    brief: "The litmus file, or - for standard input",
    full: "The litmus file, or - for standard input",
};

/// What `FILE..` are.
pub const FILES: Help = Help {
    brief: "Litmus files, - for standard input, or @LIST",
    full: "\
        Litmus files; - is standard input, and @LIST stands for the files\n\
        that LIST names, one a line",
};

/// What `FILE..` of `join` are.
pub const PARTS: Help = Help {
    brief: "Files with the parts, - for standard input, or @LIST",
    full: "\
        The files with the parts of one search; - is standard input, and\n\
        @LIST stands for the files that LIST names, one a line",
};

/// What `TRACE` is.
pub const REPLAYED: Help = Help {
    brief: "The file with the trace, or - for standard input",
    full: "The file with the trace, or - for standard input",
};

/// What `--schedule` takes.
pub const SCHEDULE: Help = Help {
    brief: "Order of steps, as 0x7,1x9",
    full: "\
        Which task makes how many steps, as 0x7,1x9; behind that the tasks\n\
        take one step each in turn",
};

/// What `--schedule` of `check` takes.
pub const CHECK_SCHEDULE: Help = Help {
    brief: "A schedule, whose syntax is checked",
    full: "A schedule, whose syntax is checked",
};

/// What `--place` takes.
pub const PLACE: Help = Help {
    brief: "Addresses, as x=0x1000,c=0x10001",
    full: "The addresses of variables, as x=0x1000,c=0x10001",
};

/// What `--turns` says.
pub const TURNS: Help = Help {
    brief: "Tries until stuck",
    full: "At so many failed tries of one wait a task is stuck, 1 to 1000000000",
};

/// What `--trace` does.
pub const TRACE: Help = Help {
    brief: "Writes the trace to this file",
    full: "\
        Writes the trace to this file: of 'run' that of the last run, of\n\
        'search' that of the first schedule with a report",
};

/// What `--where` does.
pub const WHERE: Help = Help {
    brief: "Says where each access of a report is",
    full: "\
        Says behind each access of a report where it is: file, line, column,\n\
        variable and statement",
};

/// What `--settings` of `search` does.
pub const SETTINGS: Help = Help {
    brief: "Ends with a line of the settings",
    full: "\
        Ends what is printed of a file, as text, with a line of KCSAN's\n\
        settings, as a search at a terminal does",
};

/// What `--slots` says.
pub const SLOTS: Help = Help {
    brief: "Page slots of watchpoints",
    full: "\
        How many page slots watchpoints are spread over, 3 to 1024, as\n\
        CONFIG_KCSAN_NUM_WATCHPOINTS",
};

/// What `--skip` says.
pub const SKIP: Help = Help {
    brief: "Accesses skipped per watch",
    full: "\
        How many accesses of a task are skipped between two that it watches,\n\
        up to 1000000, as CONFIG_KCSAN_SKIP_WATCH",
};

/// What `--randomize` does.
pub const RANDOMIZE: Help = Help {
    brief: "Draws each skip at random",
    full: "\
        Draws each skip at random, from 1 to what --skip says, as\n\
        CONFIG_KCSAN_SKIP_WATCH_RANDOMIZE",
};

/// What `--seed` says.
pub const SEED: Help = Help {
    brief: "Seed of the skips",
    full: "\
        The seed of the skips that are drawn; that of task T is this number\n\
        plus T",
};

/// What `--value-change-only` says.
pub const VALUE_CHANGE_ONLY: Help = Help {
    brief: "Reports changed values alone [yes]",
    full: "\
        Whether a hit is reported only where the value has changed, as\n\
        CONFIG_KCSAN_REPORT_VALUE_CHANGE_ONLY: yes, unless --strict is given",
};

/// What `--plain-writes-atomic` says.
pub const PLAIN_WRITES_ATOMIC: Help = Help {
    brief: "Aligned plain writes are marked [yes]",
    full: "\
        Whether aligned plain writes count as marked, as\n\
        CONFIG_KCSAN_ASSUME_PLAIN_WRITES_ATOMIC: yes, unless --strict is\n\
        given",
};

/// What `--unknown-origin` does.
pub const UNKNOWN_ORIGIN: Help = Help {
    brief: "Prints reports of unknown origin [yes]",
    full: "\
        Whether reports of unknown origin are printed and count for the\n\
        status, as CONFIG_KCSAN_REPORT_RACE_UNKNOWN_ORIGIN: yes. Those of\n\
        assertions are in any case. Counters and traces have them all, and\n\
        races says the same",
};

/// What `--strict` does.
pub const STRICT: Help = Help {
    brief: "The same as 'no' for these two",
    full: "\
        The same as --value-change-only no --plain-writes-atomic no: lets\n\
        aligned plain writes race, and reports hits that leave the value as\n\
        it was",
};

/// What `--kconfig` does.
pub const KCONFIG: Help = Help {
    brief: "Takes settings from a .config",
    full: "\
        Takes these settings from a kernel's .config; options of the command\n\
        line go before it",
};

/// What `--word` says.
pub const WORD: Help = Help {
    brief: "Bits of a watch word",
    full: "How many bits a watch word has, 64 or 32",
};

/// What `--runs` says.
pub const RUNS: Help = Help {
    brief: "How many runs there are, 1 to 100000",
    full: "How many runs there are, 1 to 100000",
};

/// What `--delay` says.
pub const DELAY: Help = Help {
    brief: "Rounds that a watchpoint waits at most",
    full: "\
        How many rounds of up to 64 loads of a word a task waits at most at\n\
        each watchpoint that it sets up, up to 1000000",
};

/// What `--jobs` of `run` says.
pub const JOBS: Help = Help {
    brief: "How many runs are made in parallel, 1 to 64",
    full: "How many runs are made in parallel, 1 to 64",
};

/// What `--stop-at-first` does.
pub const STOP_AT_FIRST: Help = Help {
    brief: "Ends after the first run with a report",
    full: "Ends after the first run with a report",
};

/// What `--keep-going` does.
pub const KEEP_GOING: Help = Help {
    brief: "Counts runs in which a task gets stuck, and goes on",
    full: "Counts runs in which a task gets stuck, and goes on",
};

/// What `--switches` says.
pub const SWITCHES: Help = Help {
    brief: "Switches of a schedule at most, or all",
    full: "\
        How many switches between tasks (preemptions) a schedule has at most,\n\
        0 to 64, or all for no bound",
};

/// What `--reduce` says.
pub const REDUCE: Help = Help {
    brief: "Leaves out states that tell nothing more [yes]",
    full: "\
        Whether a search with --switches all leaves out steps that others\n\
        make up for: yes. With no it visits all states; what it finds of\n\
        reports, final states and deadlocks is the same",
};

/// What `--part` says.
pub const PART: Help = Help {
    brief: "Searches part I of N alone, for 'join'",
    full: "\
        Searches part I of N alone, 1/1 to 65536/65536, and writes a line of\n\
        JSON for 'join'; of one file, with a number of --switches",
};

/// What `--limit` says.
pub const LIMIT: Help = Help {
    brief: "Nodes or states until it stops",
    full: "\
        After how many nodes, or states with --switches all, the search of a\n\
        file stops, 1 to 1000000000",
};

/// What `--seconds` says.
pub const SECONDS: Help = Help {
    brief: "Seconds until it stops",
    full: "\
        After how many seconds the search of a file stops, 1 to 1000000;\n\
        without this option that isn't bounded",
};

/// What `--jobs` of `search` says.
pub const SEARCH_JOBS: Help = Help {
    brief: "Threads that share several files, 1 to 64",
    full: "\
        How many threads share several files, 1 to 64; each file is searched\n\
        by one",
};

/// What `--format` of `search` says.
pub const SEARCH_FORMAT: Help = Help {
    brief: "text, json, csv or herd [default: text]",
    full: "\
        How what is found is printed: as text, which is the default, or for\n\
        programs as json, csv or herd",
};

/// What `--limit` of `races` says.
pub const RACES_LIMIT: Help = Help {
    brief: "States or schedules until it stops",
    full: "\
        After how many states, or schedules, each search of a file stops, 1\n\
        to 1000000000",
};

/// What `--seconds` of `races` says.
pub const RACES_SECONDS: Help = Help {
    brief: "Seconds until it stops",
    full: "\
        After how many seconds each search of a file stops, 1 to 1000000;\n\
        without this option that isn't bounded",
};

/// What `--jobs` of `races` says.
pub const RACES_JOBS: Help = Help {
    brief: "Threads that share several files, 1 to 64",
    full: "Threads that share several files, 1 to 64",
};

/// What `--format` of `races` says.
pub const FORMAT: Help = Help {
    brief: "text or json",
    full: "How the races are printed: as text, or for programs as json",
};

/// What `--color` says.
pub const COLOR: Help = Help {
    brief: "Colours: auto, always or never",
    full: "\
        Whether the text is coloured: auto, where standard output is a\n\
        terminal, NO_COLOR is unset or empty, and TERM isn't dumb; always; or\n\
        never",
};

/// What `--html` of `races` does.
pub const HTML: Help = Help {
    brief: "Writes a page with texts and pictures too",
    full: "\
        Writes a page to this file too, with the text of each file and\n\
        pictures of its races",
};

/// What `--svg` does.
pub const SVG: Help = Help {
    brief: "Writes the picture to this file too, as SVG",
    full: "Writes the picture to this file too, as SVG",
};

/// What `--source` takes.
pub const SOURCE: Help = Help {
    brief: "Names variables and statements by this litmus file",
    full: "\
        The litmus file that the trace is of: each access has the name of its\n\
        variable in place of an address, and its statement below",
};

/// What `--slots` of `show` does.
pub const INDICES: Help = Help {
    brief: "Tells the index of each watchpoint",
    full: "Tells the index of each watchpoint",
};

/// What `--ascii` does.
pub const ASCII: Help = Help {
    brief: "Draws with the signs | + - = alone",
    full: "Draws with the signs | + - = alone",
};

/// What `--print` does.
pub const PRINT: Help = Help {
    brief: "Also prints the program of each file as it is read",
    full: "Also prints the program of each file as it is read",
};

/// What `--calls` does.
pub const CALLS: Help = Help {
    brief: "Lists the calls that are read, and takes no file",
    full: "Lists the calls that are read in litmus files, and takes no file",
};
