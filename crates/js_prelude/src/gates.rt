//! Gates: numbers that goroutines wait for. A gate is a pointer to a cell of its number, those who await
//! zero, and those who want to take it.

/// Functions and variables, in order.
pub const GATES: [&'static str; 4] = [
    // Takes a gate; false where the frame waits.
    "
function $take($f,$c){
 var $h=$c[0];
 if($h[0]===0){
  $h[0]=1;
  return true;
 }
 $line($h[2],$f);
 return false;
}",
    // A frame waits in a line.
    "
function $line($l,$f){
 var $n=[$f,null];
 if($l[0]===null){
  $l[0]=$n;
 }else{
  $l[1][1]=$n;
 }
 $l[1]=$n;
 $now=$rest;
}",
    // Adds to a gate, and wakes who waits for zero.
    "
function $gadd($c,$n){
 var $h=$c[0];
 var $w=null;
 $h[0]=$h[0]+$n|0;
 if($h[0]!==0){
  return $h[0];
 }
 $w=$h[1][0];
 $h[1][0]=null;
 while($w!==null){
  $go($w[0]);
  $w=$w[1];
 }
 $w=$h[2][0];
 if($w!==null){
  $h[2][0]=$w[1];
  $h[0]=1;
  $go($w[0]);
 }
 return 0;
}",
    // Waits for zero.
    "
function $await($f,$c){
 var $h=$c[0];
 if($h[0]===0){
  return true;
 }
 $line($h[1],$f);
 return false;
}",
];
