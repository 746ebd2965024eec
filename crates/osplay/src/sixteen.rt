//! A worked example of sixteen cores, in the form of tables.

/// Sixteen cores. Each core activates a task of the next one, and the last core activates a task of the first.
pub const RING: &str = r#"
config {"version":2,"cores":[{"id":0,"tasks":[{"name":"A0","prio":1,"auto":["M"],"script":"ActivateTask B1;TerminateTask"},{"name":"B0","prio":1,"script":"TerminateTask"}],"start":[1,2,3,4,5,6,7,8,9,10,11,12,13,14,15]},{"id":1,"tasks":[{"name":"A1","prio":1,"auto":["M"],"script":"ActivateTask B2;TerminateTask"},{"name":"B1","prio":1,"script":"TerminateTask"}]},{"id":2,"tasks":[{"name":"A2","prio":1,"auto":["M"],"script":"ActivateTask B3;TerminateTask"},{"name":"B2","prio":1,"script":"TerminateTask"}]},{"id":3,"tasks":[{"name":"A3","prio":1,"auto":["M"],"script":"ActivateTask B4;TerminateTask"},{"name":"B3","prio":1,"script":"TerminateTask"}]},{"id":4,"tasks":[{"name":"A4","prio":1,"auto":["M"],"script":"ActivateTask B5;TerminateTask"},{"name":"B4","prio":1,"script":"TerminateTask"}]},{"id":5,"tasks":[{"name":"A5","prio":1,"auto":["M"],"script":"ActivateTask B6;TerminateTask"},{"name":"B5","prio":1,"script":"TerminateTask"}]},{"id":6,"tasks":[{"name":"A6","prio":1,"auto":["M"],"script":"ActivateTask B7;TerminateTask"},{"name":"B6","prio":1,"script":"TerminateTask"}]},{"id":7,"tasks":[{"name":"A7","prio":1,"auto":["M"],"script":"ActivateTask B8;TerminateTask"},{"name":"B7","prio":1,"script":"TerminateTask"}]},{"id":8,"tasks":[{"name":"A8","prio":1,"auto":["M"],"script":"ActivateTask B9;TerminateTask"},{"name":"B8","prio":1,"script":"TerminateTask"}]},{"id":9,"tasks":[{"name":"A9","prio":1,"auto":["M"],"script":"ActivateTask B10;TerminateTask"},{"name":"B9","prio":1,"script":"TerminateTask"}]},{"id":10,"tasks":[{"name":"A10","prio":1,"auto":["M"],"script":"ActivateTask B11;TerminateTask"},{"name":"B10","prio":1,"script":"TerminateTask"}]},{"id":11,"tasks":[{"name":"A11","prio":1,"auto":["M"],"script":"ActivateTask B12;TerminateTask"},{"name":"B11","prio":1,"script":"TerminateTask"}]},{"id":12,"tasks":[{"name":"A12","prio":1,"auto":["M"],"script":"ActivateTask B13;TerminateTask"},{"name":"B12","prio":1,"script":"TerminateTask"}]},{"id":13,"tasks":[{"name":"A13","prio":1,"auto":["M"],"script":"ActivateTask B14;TerminateTask"},{"name":"B13","prio":1,"script":"TerminateTask"}]},{"id":14,"tasks":[{"name":"A14","prio":1,"auto":["M"],"script":"ActivateTask B15;TerminateTask"},{"name":"B14","prio":1,"script":"TerminateTask"}]},{"id":15,"tasks":[{"name":"A15","prio":1,"auto":["M"],"script":"ActivateTask B0;TerminateTask"},{"name":"B15","prio":1,"script":"TerminateTask"}]}]}
stimuli {"0":"op op op","1":"op op op","2":"op op op","3":"op op op","4":"op op op","5":"op op op","6":"op op op","7":"op op op","8":"op op op","9":"op op op","10":"op op op","11":"op op op","12":"op op op","13":"op op op","14":"op op op","15":"op op op"}
run
core 0
start 1 E_OK
start 2 E_OK
start 3 E_OK
start 4 E_OK
start 5 E_OK
start 6 E_OK
start 7 E_OK
start 8 E_OK
start 9 E_OK
start 10 E_OK
start 11 E_OK
start 12 E_OK
start 13 E_OK
start 14 E_OK
start 15 E_OK .. pre A0
out 1 ActivateTask B1
act B0
in 15 ActivateTask B0 E_OK
stat A0 ActivateTask E_OK
post A0
end A0
pre B0 .. end B0
core 1 .. pre A1
out 2 ActivateTask B2
act B1
in 0 ActivateTask B1 E_OK
stat A1 ActivateTask E_OK
post A1
end A1
pre B1 .. end B1
core 2 .. pre A2
out 3 ActivateTask B3
act B2
in 1 ActivateTask B2 E_OK
stat A2 ActivateTask E_OK
post A2
end A2
pre B2 .. end B2
core 3 .. pre A3
out 4 ActivateTask B4
act B3
in 2 ActivateTask B3 E_OK
stat A3 ActivateTask E_OK
post A3
end A3
pre B3 .. end B3
core 4 .. pre A4
out 5 ActivateTask B5
act B4
in 3 ActivateTask B4 E_OK
stat A4 ActivateTask E_OK
post A4
end A4
pre B4 .. end B4
core 5 .. pre A5
out 6 ActivateTask B6
act B5
in 4 ActivateTask B5 E_OK
stat A5 ActivateTask E_OK
post A5
end A5
pre B5 .. end B5
core 6 .. pre A6
out 7 ActivateTask B7
act B6
in 5 ActivateTask B6 E_OK
stat A6 ActivateTask E_OK
post A6
end A6
pre B6 .. end B6
core 7 .. pre A7
out 8 ActivateTask B8
act B7
in 6 ActivateTask B7 E_OK
stat A7 ActivateTask E_OK
post A7
end A7
pre B7 .. end B7
core 8 .. pre A8
out 9 ActivateTask B9
act B8
in 7 ActivateTask B8 E_OK
stat A8 ActivateTask E_OK
post A8
end A8
pre B8 .. end B8
core 9 .. pre A9
out 10 ActivateTask B10
act B9
in 8 ActivateTask B9 E_OK
stat A9 ActivateTask E_OK
post A9
end A9
pre B9 .. end B9
core 10 .. pre A10
out 11 ActivateTask B11
act B10
in 9 ActivateTask B10 E_OK
stat A10 ActivateTask E_OK
post A10
end A10
pre B10 .. end B10
core 11 .. pre A11
out 12 ActivateTask B12
act B11
in 10 ActivateTask B11 E_OK
stat A11 ActivateTask E_OK
post A11
end A11
pre B11 .. end B11
core 12 .. pre A12
out 13 ActivateTask B13
act B12
in 11 ActivateTask B12 E_OK
stat A12 ActivateTask E_OK
post A12
end A12
pre B12 .. end B12
core 13 .. pre A13
out 14 ActivateTask B14
act B13
in 12 ActivateTask B13 E_OK
stat A13 ActivateTask E_OK
post A13
end A13
pre B13 .. end B13
core 14 .. pre A14
out 15 ActivateTask B15
act B14
in 13 ActivateTask B14 E_OK
stat A14 ActivateTask E_OK
post A14
end A14
pre B14 .. end B14
core 15 .. pre A15
out 0 ActivateTask B0
act B15
in 14 ActivateTask B15 E_OK
stat A15 ActivateTask E_OK
post A15
end A15
pre B15 .. end B15
ended
"#;
