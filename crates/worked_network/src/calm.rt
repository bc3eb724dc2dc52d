/// The report of the worked network's first cycle, in which all goes well, worked out by another program.
pub const CALM: &str = "1 131072000000 sent m1 cycle 1
2 131072000000 sent m2 cycle 1
3 131072000000 sent m3 cycle 1
4 131072000000 sent m4 cycle 1
5 131072000000 left m1 m1_a 1 clock 0
6 131072000000 left m1 m1_b 1 clock 0
7 131072000000 left m2 m2_a 2 clock 0
8 131072000000 left m2 m2_b 2 clock 0
9 131072000000 left m3 m3_a 3 clock 0
10 131072000000 left m3 m3_b 3 clock 0
11 131072000000 left m4 m4_a 4 clock 0
12 131072000000 left m4 m4_b 4 clock 0
13 131104768000 arrived ra m1_a 5 clock 32768000
14 131104768000 arrived ra m2_a 7 clock 32768000
15 131104768000 arrived ra m3_a 9 clock 32768000
16 131104768000 arrived ra m4_a 11 clock 32768000
17 131104768000 arrived rb m1_b 6 clock 32768000
18 131104768000 arrived rb m2_b 8 clock 32768000
19 131104768000 arrived rb m3_b 10 clock 32768000
20 131104768000 arrived rb m4_b 12 clock 32768000
21 131104768000 left ra ra_ca 13 clock 32768000
22 131104768000 left ra ra_ca 14 clock 32768000
23 131104768000 left ra ra_ca 15 clock 32768000
24 131104768000 left ra ra_ca 16 clock 32768000
25 131104768000 left rb rb_cb 17 clock 32768000
26 131104768000 left rb rb_cb 18 clock 32768000
27 131104768000 left rb rb_cb 19 clock 32768000
28 131104768000 left rb rb_cb 20 clock 32768000
29 131137536000 arrived ca ra_ca 21 clock 65536000
30 131137536000 arrived ca ra_ca 22 clock 65536000
31 131137536000 arrived ca ra_ca 23 clock 65536000
32 131137536000 arrived ca ra_ca 24 clock 65536000
33 131137536000 arrived cb rb_cb 25 clock 65536000
34 131137536000 arrived cb rb_cb 26 clock 65536000
35 131137536000 arrived cb rb_cb 27 clock 65536000
36 131137536000 arrived cb rb_cb 28 clock 65536000
37 134348800000 permanent ca ra_ca 29 point 134348800000 opened
38 134348800000 permanent ca ra_ca 30 point 134348800000 joined
39 134348800000 permanent ca ra_ca 31 point 134348800000 joined
40 134348800000 permanent ca ra_ca 32 point 134348800000 joined
41 134348800000 permanent cb rb_cb 33 point 134348800000 opened
42 134348800000 permanent cb rb_cb 34 point 134348800000 joined
43 134348800000 permanent cb rb_cb 35 point 134348800000 joined
44 134348800000 permanent cb rb_cb 36 point 134348800000 joined
45 136511488000 compressed ca opened 134348800000 at 136511488000 cycle 1 members 0000000f within
46 136511488000 compressed cb opened 134348800000 at 136511488000 cycle 1 members 0000000f within
47 136511488000 left ca ra_ca 45 clock 0
48 136511488000 left cb rb_cb 46 clock 0
49 136544256000 arrived ra ra_ca 47 clock 32768000
50 136544256000 arrived rb rb_cb 48 clock 32768000
51 136544256000 left ra m1_a 49 clock 32768000
52 136544256000 left ra m2_a 49 clock 32768000
53 136544256000 left ra m3_a 49 clock 32768000
54 136544256000 left ra m4_a 49 clock 32768000
55 136544256000 left ra c1_a 49 clock 32768000
56 136544256000 left rb m1_b 50 clock 32768000
57 136544256000 left rb m2_b 50 clock 32768000
58 136544256000 left rb m3_b 50 clock 32768000
59 136544256000 left rb m4_b 50 clock 32768000
60 136544256000 left rb c1_b 50 clock 32768000
61 136577024000 arrived m1 m1_a 51 clock 65536000
62 136577024000 arrived m1 m1_b 56 clock 65536000
63 136577024000 arrived m2 m2_a 52 clock 65536000
64 136577024000 arrived m2 m2_b 57 clock 65536000
65 136577024000 arrived m3 m3_a 53 clock 65536000
66 136577024000 arrived m3 m3_b 58 clock 65536000
67 136577024000 arrived m4 m4_a 54 clock 65536000
68 136577024000 arrived m4 m4_b 59 clock 65536000
69 136577024000 arrived c1 c1_a 55 clock 65536000
70 136577024000 arrived c1 c1_b 60 clock 65536000
71 139788288000 permanent m1 m1_a 61 point 139788288000 within
72 139788288000 permanent m1 m1_b 62 point 139788288000 within
73 139788288000 permanent m2 m2_a 63 point 139788288000 within
74 139788288000 permanent m2 m2_b 64 point 139788288000 within
75 139788288000 permanent m3 m3_a 65 point 139788288000 within
76 139788288000 permanent m3 m3_b 66 point 139788288000 within
77 139788288000 permanent m4 m4_a 67 point 139788288000 within
78 139788288000 permanent m4 m4_b 68 point 139788288000 within
79 139788288000 permanent c1 c1_a 69 point 139788288000 within
80 139788288000 permanent c1 c1_b 70 point 139788288000 within
81 139788288000 permanent ra ra_ca 49 point 139788288000 within
82 139788288000 permanent rb rb_cb 50 point 139788288000 within
83 149422080000 corrected m1 cycle 1 by 0 adj 0
84 149422080000 corrected m2 cycle 1 by 0 adj 0
85 149422080000 corrected m3 cycle 1 by 0 adj 0
86 149422080000 corrected m4 cycle 1 by 0 adj 0
87 149422080000 corrected c1 cycle 1 by 0 adj 0
88 149422080000 corrected ra cycle 1 by 0 adj 0
89 149422080000 corrected ca cycle 1 by 0 adj 0
90 149422080000 corrected rb cycle 1 by 0 adj 0
91 149422080000 corrected cb cycle 1 by 0 adj 0
92 157614080000 ttsent m1 m1_a 0 vl v1 cycle 1
93 157614080000 ttsent m1 m1_b 0 vl v1 cycle 1
94 158087249920 accepted ra m1_a 92 vl v1 cycle 1
95 158087249920 accepted rb m1_b 93 vl v1 cycle 1
96 159252480000 ttsent ra c1_a 94 vl v1 cycle 1
97 159252480000 ttsent rb c1_b 95 vl v1 cycle 1
98 159725649920 delivered c1 c1_a 96 vl v1 cycle 1
99 159725649920 dropped c1 c1_b 97 repeat
100 160000000000 event 1 end
101 160000000000 clock m1 reading 160000000000 adj 0 state synchronised
102 160000000000 clock m2 reading 160000000000 adj 0 state synchronised
103 160000000000 clock m3 reading 160000000000 adj 0 state synchronised
104 160000000000 clock m4 reading 160000000000 adj 0 state synchronised
105 160000000000 clock c1 reading 160000000000 adj 0 state synchronised
106 160000000000 clock ra reading 160000000000 adj 0 state synchronised
107 160000000000 clock ca reading 160000000000 adj 0 state synchronised
108 160000000000 clock rb reading 160000000000 adj 0 state synchronised
109 160000000000 clock cb reading 160000000000 adj 0 state synchronised
";
