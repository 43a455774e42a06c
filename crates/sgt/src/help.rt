//! The help texts. No line is longer than 100 columns.

/// What `sgt --help` prints after the options.
pub(crate) const HELP: &str =
    r#"Each command reads standard input (also as -), or the file that an argument names, and writes
standard output:

  sgt script < examples/write_skew.jsonl
  sgt bank --workers 4 < examples/bank/four_deposits.jsonl
  sgt check examples/histories/write_skew.txt

A script and a bank are lines of JSON. A history is text in the notation of the textbook.
'sgt script --help', 'sgt bank --help' and 'sgt check --help' describe the inputs. If you type the
input, ^D at the start of a line ends it. An error is one line on standard error, and mostly a
second one that says what was expected; the exit status is then 2. If nobody reads the output any
more, a run ends without a message, with that status. If a script or a bank takes over a second, a
terminal shows on standard error how far it is; --progress shows it elsewhere too.

Limits:

  values, keys  whole numbers of at most 15 digits; 8 tables
  live          1 to 32 transactions at a time, as line 1 says
  starts        1 to 4000000000, as line 1 says
  procedures    64 statements, 16 deep; 4 arguments, 16 registers, 8 answers;
                no loops, no scans
  a line        65536 bytes
  an input      16777216 bytes, with --most up to 4294967296; a history 268435456
  a bank        1000000 jobs, 16 workers, 1000 tries for each job

Everything is in memory, nothing is on disk: the data are gone when the program ends."#;

/// What `sgt script --help` prints after the options.
pub(crate) const SCRIPT_HELP: &str =
    r#"Line 1 has the limits, the accounts and the procedures. Record lines may follow. Each line after
them is an event and gets one line of reply. The committed database comes last.

  {"limits":[1,10],"accounts":[[1,101,500,1000]],"procedures":[]}
  ["record",3,1,7]
  ["start",0,[1]]
  ["step",0]
  ["commit",0]
  ["quit",0]
  ["begin"]
  ["read",1,3,1]
  ["write",1,3,1,8]
  ["remove",1,3,1]
  ["commit",1]
  ["cut"]

  limits      the most live transactions, from 1 to 32; the most starts, from 1 to 4000000000;
              and optionally when an abort code is reported: 0 (the default) at the step, 1 at the
              commit. With 0 the code may rest on a value that is undone later. With 1 it is the
              code of the serial run, as in 'refused 5 fell none'. (In a bank, 'refused' means that
              a job was not started.)
  accounts    of each the name, the customer, the saving and the checking
  procedures  your own, numbered from 5. [1,[["look",0,3,["arg",0],44],["answer",["reg",0]]]] takes
              1 argument, reads this record of table 3 into register 0, or aborts with code 44 if
              there is none, and answers it
  record      directly after line 1: a table from 0 to 7, a number in it and a value. Accounts are
              in tables 0, 1 and 2. --records writes such lines
  start       a procedure's number and its arguments: 0 Balance (name),
              1 DepositChecking (name, amount), 2 TransactSaving (name, amount),
              3 Amalgamate (name, name), 4 WriteCheck (name, amount)
  step        makes the transaction's next access; without one, it ends, or aborts with its code
  commit      commits it, if its procedure has ended. After the reply 'waits 1', commit again when 1
              has ended: an access of 1 conflicts with a later one of this transaction
  quit        aborts it
  begin       starts the empty procedure, 65535: the caller decides each access
  read        a read on which the caller decides, once the procedure has ended without a code: the
              transaction, a table and a number in it
  write       a write of the value that comes last
  remove      a write that removes the record
  cut         ends this part of the history, if no transaction is live: transactions are numbered
              from 0 again, and the limit of starts counts anew

The replies to these lines:

  started 0
  read 0/1 101
  not ended
  aborted quit fell none
  started 1
  read 3/1 7
  wrote 3/1 8
  removed 3/1
  committed none
  cut 9

Here 0/1 is record 1 of table 0, and 9 events were answered since line 1, or since the cut before.
A transaction is named by the number in the reply to its start. A start that is refused takes none.

With --explain, standard error says after each abort which accesses make the edges of the cycle, or
which procedure raised a code, and which reads made other transactions abort in cascade. It says why
an event was refused, and for which live transactions a commit waits. With a third limit of 0, it
says which uncommitted values a procedure had read that raised a code: if they are undone, no serial
run may give that code. At the end it lists the live transactions:

  line 9: 0 wrote 1/101 at line 8, which 1 read at line 6
  line 9: 1 would write 2/101, which 0 read at line 5
  line 12: 1 waits for 0: 1 read 2/101 at line 7, which 0 wrote at line 6
  line 20: TransactSaving aborted 2 with code 3 (the saving would be negative)
  line 20: the code may rest on an uncommitted value: 2 read 1/101 of 1 at line 18
  line 25: 3 read 2/101 of 2 at line 20
  line 26: DepositChecking takes 2 arguments, found 1
  1 transaction is live at the end: 4

Standard output and the status are as without --explain. It excludes --history and --records.
--words names a file that says what codes mean. It has a line for each: a procedure, its code, and
the words, as [5,44,"no such account"]

With --json each reply is an object of JSON, and the records at the end are lines as --records
writes them:

  {"transaction":0,"reply":"read","table":0,"number":1,"value":101}
  {"transaction":1,"reply":"aborted","cause":"cycle","cycle":[1,0],"cascade":[]}
  ["record",0,1,101]

The exit status is 0 if all lines are answered, whatever the replies: also if each is 'spent'.
The first bad line ends the script, with status 2. The replies to the lines before it are written,
and the error is on standard error, with a second line that explains it:

  line 27: bad line
  expected ["step",transaction], found ["step"]

A line has at most 65536 bytes, the input 16777216, or what --most says. A value or a key is a whole
number of at most 15 digits.
In the repository: docs/FORMATS.md has every line and reply, docs/LANGUAGE.md the procedures, and
examples/ has scripts."#;

/// What `sgt bank --help` prints after the options.
pub(crate) const BANK_HELP: &str =
    r#"Line 1 and the record lines after it are as in a script. If line 1 is too short for the accounts,
write them as record lines of tables 0, 1 and 2, as --json ends with: to go on from those of a run,
leave the accounts of line 1 empty. Each later line is a job: one call of a procedure. The workers
take the jobs in turn and run them at the same time, each as a transaction of its own: in no fixed
order, but with --workers 1. More workers gain little, since each call holds one lock. A job that a
conflict aborts is tried again. The output has a line for each job, numbered from 0, and then the
committed database:

  {"limits":[32,1000],"accounts":[[1,101,500,1000]],"procedures":[]}
  ["job",1,[1,50]]
  ["job",0,[9]]
  ["job",99,[]]

gives

  0 committed 1050
  1 asked 1
  2 refused 1
  0/1 101
  1/101 500
  2/101 1050

  job         a procedure's number and its arguments, as at a start in a script: 0 is Balance
              (name), 1 DepositChecking (name, amount), and line 1 has your own from 5 on. 65535
              does nothing and commits
  committed   the answers of its procedure, or none
  asked       its procedure aborted with this code; it changed nothing
  gave        all its tries were aborted; the number of tries
  refused     its start was refused: 1 no such procedure, 2 bad arguments, 3 no start is left, as
              each try is one, 4 too many are live. (In a script it has the code of a procedure.)
  no memory   an allocation failed; it changed nothing

With a third limit of 1, as in [32,1000,1], each code is the code of the serial run, as answers are:
run one after another in the order of 'event' (--json), the committed and the asked jobs give the
same answers and codes. If you act on codes, set the third limit to 1. Otherwise a code counts when
it is raised: it may rest on a value of another job that is undone later, or that commits later, and
so after this job in the order of 'event'.

All jobs are read before the first one runs, at most 1000000. If a line is bad, it is reported with
what was expected, and no job runs. A line has at most 65536 bytes, the input 16777216, or what
--most says. A value or a key is a whole number of at most 15 digits. The first limit, from 1 to 32,
must be at least the number of workers. The order of two jobs is not fixed. Run serially in commit
order, the committed jobs give the same answers and the same database. The exit status is 0 whatever
the outcomes.

With --explain, standard error says after the report of each job that did not commit at its first
try how it ended, and which jobs aborted its tries. A summary comes last. All numbers are of jobs:

  job 1: committed at try 3; try 1: cycle with job 0, 2; try 2: aborted in cascade with job 2
  job 4: aborted with code 1 (the name is unknown) at try 1
  job 5: refused: DepositChecking takes 2 arguments, found 1
  code 1 (the name is unknown) of Balance: 1 job
  6 jobs: 4 committed, 1 aborted with a code, 0 given up, 1 refused, 0 without memory; 7 tries

Standard output and the status are as without --explain. It excludes --history and --records.
--words names a file that says what codes mean. It has a line for each: a procedure, its code, and
the words, as [5,44,"no such account"]

With --json each outcome is an object of JSON, and the records at the end are lines as --records
writes them. 'tries' counts the tries; 'event' numbers the event of the run that ended the job, from
0: sorted by it, the committed jobs are in commit order:

  {"job":0,"outcome":"committed","answers":[1050],"event":5,"tries":1}
  {"job":1,"outcome":"asked","code":1,"event":8,"tries":1}
  {"job":2,"outcome":"refused","reason":"no procedure","tries":0}
  ["record",0,1,101]

In the repository: docs/FORMATS.md has every line, and examples/ has banks."#;

/// What `sgt check --help` prints after the options.
pub(crate) const CHECK_HELP: &str =
    r#"The history is a list of operations in the order in which they ran, separated by spaces or newlines:

  r1[x] r2[y] w2[x] w1[y]   # each reads what the other overwrites
  c2 r3[y] c1 w4[z] a4

  r1[x]       transaction 1 reads item x
  w1[x]       transaction 1 writes item x
  c1  a1      transaction 1 commits, aborts: its last operation
  # ..        a comment, up to the end of the line

A transaction is a number from 0 to 4294967295 without leading zeros. An item is 1 to 64 letters,
digits and _ . / : -. The report has these lines; the number after an operation is its position,
counted from 1:

  transactions 4: 2 committed, 1 aborted, 1 active
  serializable no: 1 2 by r1[x] (1) w2[x] (3), 2 1 by r2[y] (2) w1[y] (4)
  recoverable yes
  avoids cascading aborts no: r3[y] (6) reads from 1, which has not committed
  strict no: r3[y] (6) follows w1[y] (4), and 1 has not ended
  rigorous no: w2[x] (3) follows r1[x] (1), and 1 has not ended
  commit ordered no: 1 before 2 by r1[x] (1) w2[x] (3), and 2 committed first

  serializable    yes: a serial order of the committed transactions; others take no part; of those
                  that may come next, the one that committed first. no: a cycle of conflicts
  recoverable     a transaction commits after all from which it reads
  avoids ..       transactions read from committed transactions, or from themselves
  strict          nobody reads or overwrites what another wrote, until that one has ended
  rigorous        strict, and nobody overwrites what another read, until that one has ended
  commit ordered  transactions that conflict commit in the order of their conflicts

For a class that does not hold, the report names the first operation that violates it, and an
operation or a transaction with which it does.

With --graph the output is the serialization graph, for 'dot -Tsvg' of Graphviz: a node for each
committed transaction, in commit order, and an edge for each two that conflict, labelled with the
first two operations that do. The edges of the cycle are red:

  digraph serialization {
    2;
    1;
    1 -> 2 [label="r1[x] (1) w2[x] (3)", color=red];
    2 -> 1 [label="r2[y] (2) w1[y] (4)", color=red];
  }

With --timeline the output is a picture of the history in SVG: a row for each transaction, its
operations from left to right, arrows from writes to the reads that read from them, and the report
below. The conflicts of the cycle are red, and the first violation of each other class is orange. If
there are more than 60 operations, it draws those of the transactions involved; with --all, and
without a violation, only if there are more than 400.

With --model list-append the history is what the clients of a database saw. Their transactions
append unique values to lists and read lists. The input has objects of JSON, as Jepsen writes them,
one after another, or in one array, or maps of EDN, as Jepsen stores them in history.edn:

  {"type":"invoke","process":0,"f":"txn","value":[["r",8,null],["append",9,1]]}
  {"type":"invoke","process":1,"f":"txn","value":[["r",9,null],["append",8,2]]}
  {"type":"ok","process":0,"f":"txn","value":[["r",8,[]],["append",9,1]]}
  {"type":"ok","process":1,"f":"txn","value":[["r",9,[]],["append",8,2]]}

Such an entry in EDN, if all are: {:type :ok, :process 1, :f :txn, :value [[:r 9 []] [:append 8 2]]}

  type        invoke: a transaction begins. ok: it committed, and its reads saw these lists.
              fail: it aborted. info, or no end: unknown
  process     a whole number or a text; each process runs one transaction at a time
  f           txn. Objects with another f are of no transaction: they are skipped, and counted
  value       append key value, read (r) key list; null (in EDN nil) where the list is not known, as
              in an invoke, or empty. A key is a whole number, or a text like an item.
              A value is a whole number of at most 15 digits, and appended once to its key

Transactions are t1, t2, .. in the order in which they begin. After a transaction, the report names
the line of its end, or of its beginning if its end is unknown:

  transactions 2: 2 committed, 0 aborted, 0 unknown
  serializable no: G2-item
    t1 (line 3) before t2 (line 4): t1 read key 8 as [], without 2, which t2 appended
    t2 (line 4) before t1 (line 3): t2 read key 9 as [], without 1, which t1 appended
  strongest level: snapshot isolation

  yes         with a serial order: run in this order from empty lists, each committed transaction
              reads what its client saw. Unknown transactions may take part, aborted ones do not
  no          there is none: a cycle, or a read that fits no order. The name is that of Adya (1999)
              and Elle (2020): G0, G1a, G1b, G1c, G-single, G-nonadjacent, G2-item,
              incompatible-order, internal, unwritten (nobody appended it), duplicate-elements

With --strict the order also keeps real time: if one transaction ended before another began, it
comes first. Time is the order of the objects. With --json the report is one object of JSON. --graph
and --timeline show the cycle. If the objects are not one a line, 'entry 3' in place of 'line 3'
names the third object. 'strongest level: at least read committed' says that the next one is
undecided. After the strongest level comes what breaks the next one, unless the lines before say it;
with --strict, whether strong and session snapshot isolation hold; and how many reads were wrong,
and how many updates lost, with the first of each kind.

The status is 0 if the history is serializable and recoverable (list-append: serializable, or of the
level that --level names), 1 if not, 2 after an error, and 3 if --level's answer is undecided. The
error is on standard error, with a second line if there is more to say, and nothing is written to
standard output. An input has at most 268435456 bytes.
The classes are those of Bernstein, Hadzilacos and Goodman (1987), chapter 2.
In the repository: docs/FORMATS.md has each line, examples/histories more histories, and
examples/clients what clients saw of PostgreSQL."#;
