//! What help says below the lists of commands and arguments.

/// What to begin with, the limits of a store, and what its full slots or heap mean.
pub const LIMITS: &str = "What to do:
  make a store          mkdir DIR && timestore format DIR
  write a record        timestore put DIR 1 7 Ada London --text
  read it               timestore get DIR 1 7 --text
  see its past          timestore history DIR 1 7 --text --instants
  list a relation       timestore scan DIR 1 --csv
  write much at once    timestore run DIR < SCRIPT, where SCRIPT has the lines
                        of `timestore run --help`
  see what is left      timestore info DIR
  have more slots       timestore grow DIR
  give back space       timestore vacuum DIR TIME
  let the past go       timestore floor DIR REL TIME

Limits:
  slots      16 to 65536, chosen when the store is made. A group of 1 to 16
             commits takes one, an archive, a reclaim or a floor takes one,
             none is used again
  heap       65536 extents of 8 KiB; each commit takes one or more
  commits    write 1 to 1024 keys each
  keys       a relation, 0 to 65535, and a record, 0 to 18446744073709551615
  values     1 to 16 fields of 0 to 255 bytes, shown in hexadecimal, `-` if empty
  times      microseconds since 1970, 1 to 9223372036854775807 for a commit,
             or the text YYYY-MM-DDTHH:MM:SSZ
  memory     holds each version that the heap holds, one of 64 bytes in 90 to
             180: the least where each record has many

When a commit or an archive is refused:
  status full   no slot is left. The store still answers every query, and takes
                no further commit until it has more: `grow`
  heap full     too few extents are left for the commit. `vacuum` gives back
                those of the commits up to its time, and takes two slots

Exit status: 0 done, 1 refused, 2 words that are no command.
What the system refused is told on standard error.";

/// Of `format`.
pub const FORMAT: &str =
    "The folder must be there, and hold no store. A group of 1 to 16 commits takes
one slot, and so does an archive, a reclaim or a floor; a slot is not used again.
Each slot takes 512 bytes from the start. A store of 65536 slots takes 65536
groups, and its heap as many extents of 8 KiB; one that is full answers
`refused: status full` to each further commit.

Profile 4 has no slots: its log lies in the heap, and does not end. It is still
being built: its bytes may change. A size that is of the other profile is refused
as `wrong profile`.";

/// Of `run`.
pub const RUN: &str = "A line has one command, words parted by one space:
  begin NAME, put NAME REL REC F.., del NAME REL REC, get NAME REL REC,
  submit NAME LABEL TIME, abort NAME, pump, flush, redeem NAME,
  at REL REC TIME, between REL REC TIME TIME, scan REL TIME, times LABEL,
  archive TIME, reclaim, floor TIME, floorof REL TIME, grow, job, finish,
  reopen

NAME is 1 to 16 of a to z and 0 to 9, at most 64 at once. F is a field of 0 to
255 bytes in lower-case hexadecimal, `-` if empty, 1 to 16 of them. REL is 0 to
65535; REC and LABEL are 0 to 18446744073709551615. TIME is microseconds since
1970 or YYYY-MM-DDTHH:MM:SSZ.

Each line is answered, before the next is waited for. A refused line is answered
by `refused: ` and the reason, and the script goes on: its status is 0 at the end
of the input. A line of no such form ends it with status 1.
  status full   no slot is left for a commit, an archive, a reclaim or a floor
  heap full     no extents of 8 KiB are left for the commit
  not growable  the store may not have 256 slots more
The store is this process's alone until it ends.";

/// Of `get`, `scan` and `history`, which have forms.
pub const ANSWERS: &str = "A time is one of these, to the microsecond:
  now                        that of the last commit
  1795424400000000           microseconds since 1970
  2026-11-23T09:00:00Z       with an offset, as +01:00, or Z for UTC
  2026-11-23                 midnight, by UTC
One after the last commit is refused: `not yet` and the time of that commit; so is
one before the floor: `before kept` and the floor. A value is 1 to 16 fields in
hexadecimal, `-` for an empty one. The store is opened for this alone: where another
process has it open, the answer is `refused: device`.

With --text the words of a line are parted by tabs, and a field is its text, with
\\\\ for a backslash and \\t, \\n, \\r for a tab and the ends of lines. A field that
is no UTF-8, or has another control character, is \\x and its bytes in hexadecimal.
With --json each value, record or row is an object on a line of its own, and no line
says how many there are. A field is a string, or {\"hex\":\"ff00\"} if it is no UTF-8.
With --csv the answer is a table of RFC 4180: a row for each value, record or row,
below a row of names. The column `fields` has how many fields a value has, and `field1`,
`field2` and so on have them, empty where the value has none. A field is its text; one
that is no UTF-8, has another control character or begins with \\x is \\x and its bytes
in hexadecimal. Of several of these options --json counts first, then --csv.
A refusal is the same line in each form.";

/// Of `put` and `del`.
pub const WRITES: &str =
    "A value is 1 to 16 fields of 0 to 255 bytes. The commit is durable once it is
answered, and has the clock's time, or one just after the last commit. It is what
this script does, where NOW is the clock's time:
  begin t, put t REL REC F.. or del t REL REC, submit t LABEL NOW, flush, redeem t
The last answer is said, `done T` with the commit's time, or the first refusal:
  missing       there is no value to delete
  bad value     a field of more than 255 bytes, or not in hexadecimal; with --text,
                a backslash that is none of the escapes of `get --text`
  status full   no slot is left for the commit
  heap full     no extents are left for it
After `failed`, `times LABEL` tells whether the store has the commit.";

/// Of `times`.
pub const LABELS: &str =
    "The line is `times`, and the times of the commits with this label, rising, in
microseconds since 1970. With --text they are parted by tabs; with --json each time is
an object on a line of its own, and with --csv a row of its own, below the name `time`.";

/// Of `at` and `between`.
pub const TIMES: &str =
    "A time is microseconds since 1970, or the text YYYY-MM-DDTHH:MM:SSZ. One after
the last commit is refused: `not yet` and the time of that commit; so is one before
the floor: `before kept` and the floor. A value is 1 to 16 fields in hexadecimal,
`-` for an empty one. The store is opened for this alone: where another process has
it open, the answer is `refused: device`.";

/// Of `vacuum`.
pub const VACUUM: &str =
    "Up to the time, which is read as that of `at`, what was replaced or deleted by
then goes to the archive, and the heap gives up its space. Both take a slot, or
extents where there are no slots. Every answer stays as it was. The lines are:
  archived N    N versions went to the archive
  reclaimed N   N versions that stand at the time were written anew
It stops at the first refusal, after the line of what was done before it:
  nothing to do   the archive already reaches the time
  not yet T       the time is after the last commit, that of T
  status full     no slot is left
  heap full       no extents are left for what is written anew";

/// Of `grow`.
pub const GROW: &str =
    "The store has 256 slots more, and the file `status` 131072 bytes more. Every answer
stays as it was. The line is:
  slots N   the store has N slots now
A store of more than 65280 slots is refused by `not growable`, and so is one that a
timestore before this one made.";

/// Of `floor`.
pub const FLOOR: &str =
    "From then on each question about the relation and a time before TIME is refused. This
can't be undone. It takes a slot, and frees no space by itself: what ended by the time
is left out of the next archive. It is what `floorof REL TIME` and `finish` do in a
script. The line is:
  floor T   with the time, in microseconds since 1970
A refusal is one of:
  nothing to do   the relation's floor is the time already, or later
  not yet T       the time is after the last commit, that of T
  wrong profile   the store has one floor for all relations
  status full     no slot is left";

/// Of `info`.
pub const INFO: &str =
    "The store is not opened, and nothing is written. A line has a name and a number, 0
where there is nothing of it:
  profile       that of the store's files
  slots, used   how many slots there are, and how many are used
  extents       how many of 65536 the heap has to keep
  commits       how many the log names
  first, last   the times of the first and of the last
  archived      up to this time
  archive       the bytes of its runs
  reclaimed     up to this time
  days          the slots that are left last so long if they are used as in the
                30 days before the last commit; no line where there is no commit
  floor REL T   a line for each relation that has a floor, or `floor T` of all
Of profile 4 there are no slots, no first and no days, but these:
  heap          how many extents the heap may have
  extents       how many are used
  log, free     how many are the log's, and how many more it may have
With --json it is one object. Its member `floors` is an array, an object for each.";

/// Of `dump`.
pub const DUMP: &str = "The store is not opened, and nothing is written. The lines are:
  header SLOTS pieces N: the slots that the store was made with, and how often it
  grew by 256; of a store without pieces the slots alone
  slot N commit, then for each of its 1 to 16 commits
  member LABEL TIME EXTENT EXTENTS RECORDS INSTANT
  slot N archived UPTO START LENGTH RECORDS
  slot N reclaimed UPTO EXTENT EXTENTS RECORDS
  slot N floor TIME, or slot N floor TIME relation REL
  used N of SLOTS: when all are used, commits are refused by `status full`
Of profile 4, whose log is chains of extents, H the first extent of each:
  header extents E root H
  chain H base UPTO EXTENT EXTENTS RECORDS, then
  roll START LENGTH, archived UPTO START LENGTH RECORDS 0, floor TIME relation REL
  chain H commits extents N, then for each of its commits
  member LABEL TIME RECORDS INSTANT
  chain H archived UPTO START LENGTH RECORDS RUNS
  chain H floor TIME relation REL
  next H: where the log goes on
  used N of E
A chain that is not right ends it, as `refused: damaged heap H`.";

/// Of `stress`.
pub const STRESS: &str =
    "Each writer commits a record of its own, once a round, while the readers ask for
them and a committer and a vacuum go on beside them. At the end each record has to
have the value of its last round. The answer is:
  commits N last N
with N the writers times the rounds, or none, with status 1. No folder is used.";
